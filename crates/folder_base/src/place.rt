use crate::files::Files;
use crate::step::Step;

/// What a part that is back has done, and its files, until they are merged.
#[derive(Drop)]
pub(crate) struct Place {
    pub(crate) steps: Vec<Step>,
    pub(crate) files: Files,
}
