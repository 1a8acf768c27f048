use info_tree::{Style, Tree, TreeList, TreeMap, push_json, read_tree, tree_json};
use std::alloc::Global;
use std::test::Fail;
use text_base::{Num, Text};

const TEXT: &str =
    "{\"id\": \"a\\\"\\\\\\u0001\\n\x7f\", \"title\": \"Größe 😀\", \"formats\": [{\"height\": 720, \"fps\": 29.97, \"x\": null}, [], {}, [true, false]]}";

const ASCII: &str =
    "{\"id\": \"a\\\"\\\\\\u0001\\n\\u007f\", \"title\": \"Gr\\u00f6\\u00dfe \\ud83d\\ude00\", \"formats\": [{\"height\": 720, \"fps\": 29.97, \"x\": null}, [], {}, [true, false]]}";

const PRETTY: &str =
    "{\n    \"id\": \"a\\\"\\\\\\u0001\\n\x7f\",\n    \"title\": \"Größe 😀\",\n    \"formats\": [\n        {\n            \"height\": 720,\n            \"fps\": 29.97,\n            \"x\": null\n        },\n        [],\n        {},\n        [\n            true,\n            false\n        ]\n    ]\n}";

const PRETTY_ASCII: &str =
    "{\n    \"id\": \"a\\\"\\\\\\u0001\\n\\u007f\",\n    \"title\": \"Gr\\u00f6\\u00dfe \\ud83d\\ude00\",\n    \"formats\": [\n        {\n            \"height\": 720,\n            \"fps\": 29.97,\n            \"x\": null\n        },\n        [],\n        {},\n        [\n            true,\n            false\n        ]\n    ]\n}";

/// What is printed for a copy of a text's tree.
fn printed(alloc: Global, text: &str, style: Style) -> Result<Text, Fail> {
    let tree = read_tree(alloc, text.as_bytes())?;
    let copy = tree.copy(alloc)?;
    Ok(tree_json(alloc, &copy, style)?)
}

/// The printed texts are those of python3's `json.dumps`.
#[test]
fn a_tree_is_printed_in_each_style(rt: HostRuntime) -> Result<(), Fail> {
    for (pretty, ascii, wanted) in [
        (false, false, TEXT),
        (false, true, ASCII),
        (true, false, PRETTY),
        (true, true, PRETTY_ASCII),
    ] {
        let found = printed(rt.alloc(), TEXT, Style { pretty, ascii })?;
        assert_eq!(rt; found.as_str(), wanted);
    }
    Ok(())
}

const PLAIN: Style = Style {
    pretty: false,
    ascii: false,
};

#[test]
fn a_repeated_key_keeps_its_place(rt: HostRuntime) -> Result<(), Fail> {
    let once = " {\"a\":1,\"b\":[null,true,2.5],\"a\":3}\n";
    let found = printed(rt.alloc(), once, PLAIN)?;
    assert_eq!(rt; found.as_str(), "{\"a\": 3, \"b\": [null, true, 2.5]}");
    let keys = "\"key\":0,".repeat(rt.alloc(), 100_000)?;
    let often = format!(in rt.alloc(); "{{{keys}\"key\":1,\"last\":2}}")?;
    let found = printed(rt.alloc(), often.as_str(), PLAIN)?;
    assert_eq!(rt; found.as_str(), "{\"key\": 1, \"last\": 2}");
    Ok(())
}

fn built(alloc: Global) -> Result<Tree, Fail> {
    let mut list = TreeList::with_capacity(alloc, 2)?;
    list.push(Tree::Num(Num::Int(720)))?;
    list.push(Tree::Text(Text::new(alloc, "x")?))?;
    let mut map = TreeMap::new(alloc);
    map.put(Text::new(alloc, "a")?, Tree::Null)?;
    map.set(String::from_str(alloc, "b")?, Tree::List(list))?;
    map.put(Text::new(alloc, "a")?, Tree::Bool(true))?;
    Ok(Tree::Map(map))
}

#[test]
fn a_tree_is_built_and_printed_behind_a_text(rt: HostRuntime) -> Result<(), Fail> {
    let tree = built(rt.alloc())?;
    let mut out = String::from_str(rt.alloc(), "tree: ")?;
    push_json(rt.alloc(), &mut out, &tree, PLAIN)?;
    assert_eq!(rt; out.as_str(), "tree: {\"a\": true, \"b\": [720, \"x\"]}");
    Ok(())
}
