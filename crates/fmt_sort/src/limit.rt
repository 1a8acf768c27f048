use text_base::Num;

/// A limit of a field.
#[derive(Clone, Copy, Debug)]
pub enum Limit {
    Number(Num),
    /// The points of a text in the field's row.
    Points(u8),
}
