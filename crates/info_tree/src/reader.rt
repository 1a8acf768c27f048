ghost use Rattle.std.specs.Prelude.{◌≤◌, ◌+◌, ◌≡◌, ◌<◌, length, IfOk, IfErr};
ghost use Rattle.std.specs.Str.{IsUtf8};
ghost use Rattle.info_tree.specs.Tree.{Tree as Plain};
ghost use Rattle.info_tree.specs.Plain.{plain};
ghost use Rattle.info_tree.specs.Reading.{IsTextOf, Has, IsTree, IsFault, most_bytes};
ghost use Rattle.info_tree.specs.Lexed.{plain_mark, plain_next, Lexes, IsNoToken};

use crate::machine::{Next, finished, levels, step};
use crate::token::{Token, TokenFault, first_token, skip_space};
use crate::tree::Tree;
use crate::tree_fault::TreeFault;
use std::alloc::Global;
use std::str;

/// The most bytes that a text may have.
const MOST_BYTES: usize = 67_108_864;

/// The most lists and maps that may be open at once.
const MOST_LEVELS: usize = 128;

/// The tree that a JSON text spells, or the text's first fault (RFC 8259).
pub fn read_tree(alloc: Global, bytes: &[u8]) -> Result<Tree, TreeFault>
    // What is read is the text's tree, and a text that has a tree is read as it.
    ensures tree { IfOk result (λ t. IsTextOf bytes.now (plain t)) }
    ensures only { (tree : Plain) → IsTextOf bytes.now tree → IsTree tree result }
    // What is answered is the text's fault, and a text that has a fault is refused by it.
    ensures fault { IfErr result (Has bytes.now) }
    ensures exact { (fault : TreeFault) → Has bytes.now fault → IsFault fault result }
{
    read_bytes(alloc, bytes)
}

fn read_bytes(alloc: Global, bytes: &[u8]) -> Result<Tree, TreeFault>
    ensures tree { IfOk result (λ t. IsTextOf bytes.now (plain t)) }
    ensures fault { IfErr result (Has bytes.now) }
{
    if bytes.len() > MOST_BYTES {
        return Err(TreeFault::TooLong);
    }
    match str::from_utf8(bytes) {
        Ok(text) => read_text(alloc, text),
        Err(error) => Err(TreeFault::NotUtf8 {
            at: error.valid_up_to(),
        }),
    }
}

fn read_text(alloc: Global, text: &str) -> Result<Tree, TreeFault>
    requires { length text.now ≤ most_bytes }
    ensures tree { IfOk result (λ t. IsTextOf text.now (plain t)) }
    ensures fault { IfErr result (Has text.now) }
{
    let mut frames = Vec::new(alloc);
    let mut next = Next::Value;
    let mut rest = skip_space(text);
    while !rest.is_empty() {
        let at = text.len() - rest.len();
        let (token, after) = match next_token(alloc, rest, &next, at) {
            Ok(found) => found,
            Err(fault) => return Err(fault),
        };
        let taken = step(alloc, &mut frames, next, token)?;
        next = match taken {
            Some(next) => next,
            None => return Err(TreeFault::Syntax { at }),
        };
        if levels(&frames, &next) > MOST_LEVELS {
            return Err(TreeFault::Depth { at });
        }
        rest = skip_space(after);
    }
    match finished(frames, next) {
        Some(tree) => Ok(tree),
        None => Err(TreeFault::Syntax { at: text.len() }),
    }
}

/// The token at the front of what is left, or the fault that stands there in this state.
fn next_token<'a>(
    alloc: Global,
    rest: &'a str,
    next: &Next,
    at: usize,
) -> Result<(Token, &'a str), TreeFault>
    ensures token { IfOk result (λ p. Lexes rest.now (plain_mark p.0) p.1.now) }
    ensures text { IfOk result (λ p. IsUtf8 p.1.now) }
    ensures fault { IfErr result (IsNoToken rest.now (plain_next next.now) at) }
{
    match first_token(alloc, rest) {
        Ok(Some(found)) => Ok(found),
        Ok(None) => Err(TreeFault::Syntax { at }),
        Err(TokenFault::Number(fault)) => {
            if next.takes_value() {
                Err(TreeFault::Number { at, fault })
            } else {
                Err(TreeFault::Syntax { at })
            }
        }
        Err(TokenFault::OutOfMemory) => Err(TreeFault::OutOfMemory),
    }
}
