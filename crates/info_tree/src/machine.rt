ghost use Rattle.std.specs.Prelude.{◌≡◌, ◌+◌, ◌≤◌, ◌^◌, List, [], Some, None, IfOk, MatchOption};
ghost use Rattle.info_tree.specs.Plain.{plain};
ghost use Rattle.info_tree.specs.Machine as machine;
ghost use Rattle.info_tree.specs.Lexed.{plain_mark, plain_frames, plain_next, Takes, IsUnfinished, state_levels, takes_value};

use crate::token::Token;
use crate::tree::{Tree, TreeList, TreeMap};
use std::alloc::Global;
use text_base::{OutOfMemory, Text};

/// A list or a map that is open, with the key whose value is being read.
#[derive(Drop)]
pub enum Frame {
    List(TreeList),
    Map(TreeMap, Text),
}

/// What may come next.
#[derive(Drop)]
pub enum Next {
    Value,
    ItemOrEnd,
    KeyOrEnd,
    Key(TreeMap),
    Colon(TreeMap, Text),
    Done(Tree),
}

/// Takes a token, or says that it can't stand here.
pub fn step(
    alloc: Global,
    frames: &mut Vec<Frame>,
    next: Next,
    token: Token,
) -> Result<Option<Next>, OutOfMemory>
    ensures { IfOk result (λ o. Takes
        (machine.take_mark (plain_frames frames.old.items) (plain_next next) (plain_mark token))
        frames.new.items o) }
{
    match next {
        Next::Value => Ok(begin_value(token)),
        Next::ItemOrEnd => item_or_close(alloc, frames, token),
        Next::KeyOrEnd => Ok(key_or_close(alloc, token)),
        Next::Key(map) => Ok(a_key(map, token)),
        Next::Colon(map, key) => a_colon(frames, map, key, token),
        Next::Done(tree) => after_value(frames, tree, token),
    }
}

/// A value begins.
fn begin_value(token: Token) -> Option<Next>
    ensures { (fs : List machine.Frame) → MatchOption result
        (machine.begin_value fs (plain_mark token) ≡ None)
        (λ n. machine.begin_value fs (plain_mark token) ≡ Some (fs, plain_next n)) }
{
    match token {
        Token::BeginList => Some(Next::ItemOrEnd),
        Token::BeginMap => Some(Next::KeyOrEnd),
        Token::Null => Some(Next::Done(Tree::Null)),
        Token::Bool(value) => Some(Next::Done(Tree::Bool(value))),
        Token::Number(value) => Some(Next::Done(Tree::Num(value))),
        Token::Text(text) => Some(Next::Done(Tree::Text(text))),
        _ => None,
    }
}

/// The first item of a list begins, or the list ends.
fn item_or_close(
    alloc: Global,
    frames: &mut Vec<Frame>,
    token: Token,
) -> Result<Option<Next>, OutOfMemory>
    ensures { IfOk result (λ o. Takes
        (machine.item_or_close (plain_frames frames.old.items) (plain_mark token))
        frames.new.items o) }
{
    match token {
        Token::EndList => Ok(Some(Next::Done(Tree::List(TreeList::new(alloc))))),
        token => match begin_value(token) {
            Some(next) => {
                frames.push(Frame::List(TreeList::new(alloc)))?;
                Ok(Some(next))
            }
            None => Ok(None),
        },
    }
}

/// The first key of a map comes, or the map ends.
fn key_or_close(alloc: Global, token: Token) -> Option<Next>
    ensures { (fs : List machine.Frame) → MatchOption result
        (machine.key_or_close fs (plain_mark token) ≡ None)
        (λ n. machine.key_or_close fs (plain_mark token) ≡ Some (fs, plain_next n)) }
{
    match token {
        Token::EndMap => Some(Next::Done(Tree::Map(TreeMap::new(alloc)))),
        Token::Text(key) => Some(Next::Colon(TreeMap::new(alloc), key)),
        _ => None,
    }
}

/// A key comes.
fn a_key(map: TreeMap, token: Token) -> Option<Next>
    ensures { (fs : List machine.Frame) → MatchOption result
        (machine.a_key fs map (plain_mark token) ≡ None)
        (λ n. machine.a_key fs map (plain_mark token) ≡ Some (fs, plain_next n)) }
{
    match token {
        Token::Text(key) => Some(Next::Colon(map, key)),
        _ => None,
    }
}

/// The colon behind a key comes.
fn a_colon(
    frames: &mut Vec<Frame>,
    map: TreeMap,
    key: Text,
    token: Token,
) -> Result<Option<Next>, OutOfMemory>
    ensures { IfOk result (λ o. Takes
        (machine.a_colon (plain_frames frames.old.items) map key (plain_mark token))
        frames.new.items o) }
{
    match token {
        Token::Colon => {
            frames.push(Frame::Map(map, key))?;
            Ok(Some(Next::Value))
        }
        _ => Ok(None),
    }
}

/// An item has come: a comma, or the end of its list.
fn after_item(
    frames: &mut Vec<Frame>,
    list: TreeList,
    token: Token,
) -> Result<Option<Next>, OutOfMemory>
    ensures { IfOk result (λ o. Takes
        (machine.after_item (plain_frames frames.old.items) list (plain_mark token))
        frames.new.items o) }
{
    match token {
        Token::EndList => Ok(Some(Next::Done(Tree::List(list)))),
        Token::Comma => {
            frames.push(Frame::List(list))?;
            Ok(Some(Next::Value))
        }
        _ => Ok(None),
    }
}

/// A member has come: a comma, or the end of its map.
fn after_member(
    frames: &mut Vec<Frame>,
    map: TreeMap,
    token: Token,
) -> Result<Option<Next>, OutOfMemory>
    ensures { IfOk result (λ o. Takes
        (machine.after_member (plain_frames frames.old.items) map (plain_mark token))
        frames.new.items o) }
{
    match token {
        Token::EndMap => Ok(Some(Next::Done(Tree::Map(map)))),
        Token::Comma => Ok(Some(Next::Key(map))),
        _ => Ok(None),
    }
}

/// A value has come: it goes into the innermost list or map.
fn after_value(
    frames: &mut Vec<Frame>,
    tree: Tree,
    token: Token,
) -> Result<Option<Next>, OutOfMemory>
    ensures { IfOk result (λ o. Takes
        (machine.after_value (plain_frames frames.old.items) (plain tree) (plain_mark token))
        frames.new.items o) }
{
    match frames.pop() {
        None => Ok(None),
        Some(Frame::List(mut list)) => {
            list.push(tree)?;
            after_item(frames, list, token)
        }
        Some(Frame::Map(mut map, key)) => {
            map.put(key, tree)?;
            after_member(frames, map, token)
        }
    }
}

/// The tree, where a whole value has come.
pub fn finished(frames: Vec<Frame>, next: Next) -> Option<Tree>
    ensures { MatchOption result (IsUnfinished (plain_frames frames.items) (plain_next next))
        (λ t. (plain_frames frames.items ≡ []) × (plain_next next ≡ machine.done (plain t))) }
{
    match next {
        Next::Done(tree) => { if frames.is_empty() { Some(tree) } else { None } }
        _ => None,
    }
}

/// How many lists and maps are open.
pub fn levels(frames: &Vec<Frame>, next: &Next) -> usize
    ensures { result ≡ state_levels (plain_frames frames.now.items, plain_next next.now) }
{
    frames.len() + next.inner_levels()
}

impl Next {
    ghost use Rattle.info_tree.specs.Lexed.{plain_next, inner_levels, takes_value};

    fn inner_levels(&self) -> usize
        ensures levels { result ≡ inner_levels (plain_next self.now) }
        ensures small { result ≤ 1 }
    {
        match self {
            Next::Value | Next::Done(_) => 0,
            Next::ItemOrEnd | Next::KeyOrEnd | Next::Key(_) | Next::Colon(..) => 1,
        }
    }

    /// Whether a value may begin.
    pub fn takes_value(&self) -> bool
        ensures { result ≡ takes_value (plain_next self.now) }
    {
        matches!(self, Next::Value | Next::ItemOrEnd)
    }
}
