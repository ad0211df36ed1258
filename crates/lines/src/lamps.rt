// The lamp table as it is printed for panel builders, computed from the rule.
ghost use Rattle.std.specs.Prelude.{◌≡◌, ◌≤◌, length};
ghost use Rattle.text.specs.Text.{written};
ghost use Rattle.lines.specs.PrintedTable.{table_room, table_text};

use crate::put_number;
use indications::lamp_table::TABLE_LENGTH;
use indications::rule::entry_by_rule;
use text::Text;

const LINE_ROOM: usize = 6;

// Room for the table.
pub const TABLE_ROOM: usize = LINE_ROOM * TABLE_LENGTH;

// Writes the table from the buffer's front on, and returns its length.
#[tactic(auto, using(text::proofs::Put::first_none), unfolding(crate::specs::PrintedTable::table_text, text::specs::Put::put))]
pub fn put_table(buffer: &mut [u8]) -> usize
    requires { table_room ≤ length buffer.old }
    ensures value { result ≡ length table_text }
    ensures buffer_after { buffer.new ≡ written buffer.old 0 table_text }
{
    let mut text = Text::new(buffer);
    for i in 0..TABLE_LENGTH {
        put_number(&mut text, entry_by_rule(i as u8) as usize, b'\n');
    }
    text.length()
}
