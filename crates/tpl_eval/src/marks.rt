use text_base::Text;

/// The texts that stand where there is no value.
#[derive(Drop)]
pub struct Marks {
    /// The placeholder of a field that has neither a value nor a default.
    pub na: Text,
}

/// How the texts of fields are cleaned.
#[derive(Clone, Copy, Debug, PartialEq, Eq)]
pub enum Clean {
    /// As they are.
    Plain,
    /// For names of files.
    Names,
    /// For names of files, in ASCII.
    Restricted,
}
