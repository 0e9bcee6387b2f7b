//! The drawers, one on each line.
ghost use Rattle.std.specs.Prelude.{◌≡◌, ◌++◌, codes, ◌∷◌, [], map};
ghost use Rattle.std.specs.List.{concat};
ghost use Rattle.text_page.specs.Output.{Puts};
ghost use Rattle.reply_text.specs.Text.{row_text, row_state, row_lines, sizes_of};

use crate::reply::write_numbers;
use block_traits::{ByteList, Sink};
use std::marker::Model;
use text_page::{Page, WriteEnd, put};

/// A drawer in a list of them.
#[derive(Debug, Drop)]
pub struct Row {
    /// The drawer's name.
    pub name: ByteList,
    /// Whether the drawer is attached.
    pub attached: bool,
    /// Whether the drawer is suspended.
    pub suspended: bool,
    /// The bytes of a logical sector; 0 if the drawer is idle.
    pub sectorsize: u32,
    /// The number of logical sectors; 0 if the drawer is idle.
    pub sectors: u64,
}

/// Drawers in the order in which they were added.
#[derive(Debug, Drop)]
pub struct RowList {
    rows: Vec<Row>,
}

impl Model for RowList {
    ghost use Rattle.std.specs.Prelude.{List};
    ghost use Rattle.reply_text.specs.declared.rows.Row.{Row};

    ghost Value = { List Row };

    ghost view = { λ list. list.rows.items };
}

impl RowList {
    /// The list of these rows. Allocates no memory.
    pub fn from_vec(rows: Vec<Row>) -> RowList
        ensures { result ≡ rows.items }
    {
        RowList { rows }
    }

    /// The rows in order.
    pub fn as_slice(&self) -> &[Row]
        ensures { result.now ≡ self.now }
    {
        self.rows.as_slice()
    }
}

pub(crate) fn write_rows<K: Sink, const N: usize>(
    rows: &[Row],
    page: &mut Page<N>,
    output: &mut K,
) -> Result<(), WriteEnd>
    ensures { Puts (row_lines rows.now) page.old.items (K.state output.old) result page.new.items (K.state output.new) }
{
    for row in rows {
        write_row(row, page, output)?;
    }
    Ok(())
}

// Puts a line with the name and the state of a drawer.
fn write_row<K: Sink, const N: usize>(
    row: &Row,
    page: &mut Page<N>,
    output: &mut K,
) -> Result<(), WriteEnd>
    ensures { Puts (row_text row.now) page.old.items (K.state output.old) result page.new.items (K.state output.new) }
{
    put(row.name.as_slice(), page, output)?;
    write_state(row, page, output)?;
    put(b"\n", page, output)
}

// Puts the name of a drawer's state, the bytes of a logical sector, and how many logical sectors there are.
fn write_sizes<K: Sink, const N: usize>(
    state: &[u8],
    row: &Row,
    page: &mut Page<N>,
    output: &mut K,
) -> Result<(), WriteEnd>
    ensures { Puts (state.now ++ sizes_of row.now) page.old.items (K.state output.old) result page.new.items (K.state output.new) }
{
    put(state, page, output)?;
    write_numbers(&[row.sectorsize.into(), row.sectors], page, output)
}

fn write_state<K: Sink, const N: usize>(
    row: &Row,
    page: &mut Page<N>,
    output: &mut K,
) -> Result<(), WriteEnd>
    ensures { Puts (row_state row.now) page.old.items (K.state output.old) result page.new.items (K.state output.new) }
{
    if row.suspended {
        return write_sizes(b" suspended", row, page, output);
    }
    if row.attached {
        return write_sizes(b" attached", row, page, output);
    }
    put(b" idle", page, output)
}
