//! Tools in memory, over a folder in memory.

use folder_base::FolderMem;
use std::test::Fail;
use text_base::{FolderFault, Text};
use tool_chain::{ToolJob, ToolTurn, Tools, ToolsMem};

#[test]
fn tools_in_memory_follow_their_script(rt: HostRuntime) -> Result<(), Fail> {
    let alloc = rt.alloc();
    let mut folder = FolderMem::new(alloc, Vec::new(alloc), Vec::new(alloc), None)?;
    let mut script = Vec::new(alloc);
    script.push(ToolTurn::StartFails)?;
    script.push(ToolTurn::Status(3))?;
    let mut tools = ToolsMem::new(alloc, script)?;
    let job = ToolJob {
        program: Text::new(alloc, "ffmpeg")?,
        args: Vec::new(alloc),
        inputs: Vec::new(alloc),
        output: Some(Text::new(alloc, "out")?),
    };
    assert_eq!(rt;
        tools.run(alloc, &mut folder, &job),
        Err(FolderFault::Failed)
    );
    assert_eq!(rt; tools.run(alloc, &mut folder, &job), Ok(3));
    // The output stands by now.
    assert_eq!(rt; tools.run(alloc, &mut folder, &job), Ok(1));
    assert_eq!(rt; tools.runs().len(), 3);
    Ok(())
}
