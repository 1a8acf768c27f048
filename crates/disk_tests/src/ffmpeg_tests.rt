//! The arguments of a merge, an audio copy and a remux, given to ffmpeg where there is one.
use child_tools::ChildTools;
use disk_folder::DiskFolder;
use folder_base::Folder;
use std::alloc::Global;
use std::test::Fail;
use text_base::Text;
use tool_chain::{ToolJob, Tools};

/// A job of ffmpeg with these words, of which the last one is `./` and its output.
fn ffmpeg_job(alloc: Global, words: &str, output: &str) -> Result<ToolJob, Fail> {
    let mut args = Vec::new(alloc);
    for word in words.split(' ') {
        args.push(Text::new(alloc, word)?)?;
    }
    args.push(Text::from(format!(in alloc; "./{output}")?))?;
    Ok(ToolJob {
        program: Text::new(alloc, "ffmpeg")?,
        args,
        inputs: Vec::new(alloc),
        output: Some(Text::new(alloc, output)?),
    })
}

#[test]
fn ffmpeg_merges_copies_and_remuxes(rt: HostRuntime) -> Result<(), Fail> {
    let alloc = rt.alloc();
    let mut folder = DiskFolder::new(&rt, alloc);
    let mut tools = ChildTools::new(&rt, rt.stderr());
    let video = ffmpeg_job(
        alloc,
        "-y -f lavfi -i testsrc=d=1:s=64x64 -c:v mpeg4",
        "video.mp4",
    )?;
    if tools.run(alloc, &mut folder, &video).is_err() {
        println!(rt; "no ffmpeg in PATH: its test does nothing")?;
        return Ok(());
    }
    let mut steps = Vec::new(alloc);
    steps.push(ffmpeg_job(alloc, "-y -f lavfi -i sine=d=1", "audio.m4a")?)?;
    let merge = "-y -i ./video.mp4 -i ./audio.m4a -map 0:v:0 -map 1:a:0 -c copy";
    steps.push(ffmpeg_job(alloc, merge, "merged.mp4")?)?;
    steps.push(ffmpeg_job(alloc, "-y -i ./merged.mp4 -vn -c:a copy", "copied.m4a")?)?;
    steps.push(ffmpeg_job(alloc, "-y -i ./merged.mp4 -c copy", "remuxed.mkv")?)?;
    for step in &steps {
        assert_eq!(rt; tools.run(alloc, &mut folder, step), Ok(0));
    }
    for output in &["audio.m4a", "merged.mp4", "copied.m4a", "remuxed.mkv"] {
        assert!(rt; folder.size(output)?.is_some());
    }
    Ok(())
}
