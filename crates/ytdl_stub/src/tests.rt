use super::*;
use std::fs;
use std::test::Fail;

#[test]
fn files_are_joined_in_order(rt: HostRuntime) -> Result<(), Fail> {
    fs::write(&rt, "a", "abc")?;
    fs::write(&rt, "b", "def")?;
    let mut words = Vec::new(rt.alloc());
    for word in [
        "-y",
        "-loglevel",
        "-i",
        "b",
        "-i",
        "a",
        "-c",
        "copy",
        "joined",
    ] {
        words.push(String::from_str(rt.alloc(), word)?)?;
    }
    let Some(Job::Join(joining)) = job_of(rt.alloc(), &words)? else {
        return Err(Fail::from("no files to join"));
    };
    join_files(&rt, &joining)?;
    assert_eq!(rt; fs::read_to_string(&rt, "joined")?.as_str(), "defabc");
    Ok(())
}

#[test]
fn a_missing_input_leaves_the_output_alone(rt: HostRuntime) -> Result<(), Fail> {
    let mut inputs = Vec::new(rt.alloc());
    inputs.push("missing")?;
    let joining = joining::Joining {
        inputs,
        output: "joined",
    };
    assert!(rt; join_files(&rt, &joining).is_err());
    assert!(rt; fs::read_to_string(&rt, "joined").is_err());
    Ok(())
}
