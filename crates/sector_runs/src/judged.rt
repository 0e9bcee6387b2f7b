//! What is known of units whose tags were checked.
ghost use Rattle.std.specs.Prelude.{◌*◌, ◌≤◌};

/// What is known of some units one after the other. The units of one row were checked side by side: those of the same
/// number in four logical sectors, or four of one logical sector.
#[derive(Clone, Copy)]
pub struct Judged {
    /// How many units there are.
    pub count: usize,
    /// How many rows there are.
    pub rows: usize,
    /// For each row, which units are accepted: the unit of the row's number, and each that is `rows` after the one
    /// before it.
    pub accepted: [[bool; 4]; 10],
    pub ghost some: { 1 ≤ rows },
    pub ghost few: { rows ≤ 10 },
    pub ghost within: { count ≤ 4 * rows },
}
