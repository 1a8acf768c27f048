//! The test of a path.
ghost use Rattle.std.specs.Prelude.{◌≡◌, ◌==◌};
ghost use Rattle.std.specs.Char.{is_ascii_control};
ghost use Rattle.std.specs.List.{list_any, slice_split};
ghost use Rattle.std.specs.Option.{is_some};
ghost use Rattle.std.specs.Result.{result_err};
ghost use Rattle.name_text.specs.Path as spec;

/// Why a text is no path of a file below the folder.
#[derive(Clone, Copy, Debug, PartialEq, Eq)]
pub enum PathFault {
    /// A component is empty.
    Empty,
    /// It begins with a slash.
    Absolute,
    /// A component is `.` or `..`.
    DotDot,
    /// A component, counted from 0, has over 255 bytes.
    Long { component: usize },
    /// It has a control character of ASCII.
    Control,
}

/// The most bytes of a component.
const COMPONENT_BYTES: usize = 255;

/// Refuses what is no path of a file below the folder, with its first fault: a control character, a slash in front, or a component that is
/// empty, `.` or `..`, or too long.
pub fn check_path(name: &str) -> Result<(), PathFault>
    ensures { result_err result ≡ spec.path_fault name.now }
{
    match path_fault(name) {
        Some(fault) => Err(fault),
        None => Ok(()),
    }
}

fn path_fault(name: &str) -> Option<PathFault>
    ensures { result ≡ spec.path_fault name.now }
{
    if has_controls(name) {
        Some(PathFault::Control)
    } else if name.as_bytes().starts_with(b"/") {
        Some(PathFault::Absolute)
    } else {
        first_fault(name)
    }
}

fn has_controls(name: &str) -> bool
    ensures { result ≡ list_any is_ascii_control name.now }
{
    name.as_bytes().iter().any(|byte| byte.is_ascii_control())
}

/// The first fault of the components.
fn first_fault(name: &str) -> Option<PathFault>
    ensures { result ≡ spec.first_fault 0 (slice_split (λ b. b == 47) name.now) }
{
    let mut parts = name.split('/').enumerate();
    let (place, component) = parts.find(|part| is_faulty(part.0, part.1))?;
    component_fault(place, component)
}

fn is_faulty(place: usize, component: &str) -> bool
    ensures { result ≡ is_some (spec.component_fault place component.now) }
{
    component_fault(place, component).is_some()
}

fn component_fault(place: usize, component: &str) -> Option<PathFault>
    ensures { result ≡ spec.component_fault place component.now }
{
    if component.is_empty() {
        Some(PathFault::Empty)
    } else if component == "." || component == ".." {
        Some(PathFault::DotDot)
    } else if component.len() > COMPONENT_BYTES {
        Some(PathFault::Long { component: place })
    } else {
        None
    }
}
