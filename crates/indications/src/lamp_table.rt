// The lamp table (document 02, request 6): the constant from which panels are wired and the indications are read.
ghost use Rattle.std.specs.Prelude.{◌≡◌};
ghost use Rattle.rules.specs.LampTable.{lamp_entry, lamp_table};

pub const TABLE_LENGTH: usize = 256;

pub type LampTable = [u8; TABLE_LENGTH];

// In the order of the index, as the generator prints them.
const LAMP_TABLE: LampTable = [
    1, 1, 2, 2, 1, 4, 2, 3, 1, 1, 2, 2, 1, 4, 2, 3, 0, 0, 0, 0, 0, 0, 0, 0, 0, 0, 0, 0, 0, 0, 0, 0,
    1, 1, 2, 2, 1, 4, 2, 3, 1, 1, 2, 2, 1, 4, 2, 3, 0, 0, 0, 0, 0, 0, 0, 0, 0, 0, 0, 0, 0, 0, 0, 0,
    6, 6, 7, 7, 6, 9, 7, 8, 11, 11, 12, 12, 11, 14, 12, 13, 5, 5, 5, 5, 5, 5, 5, 5, 10, 10, 10, 10,
    10, 10, 10, 10, 11, 11, 12, 12, 11, 14, 12, 13, 11, 11, 12, 12, 11, 14, 12, 13, 10, 10, 10, 10,
    10, 10, 10, 10, 10, 10, 10, 10, 10, 10, 10, 10, 16, 16, 17, 17, 16, 19, 17, 18, 16, 16, 17, 17,
    16, 19, 17, 18, 15, 15, 15, 15, 15, 15, 15, 15, 15, 15, 15, 15, 15, 15, 15, 15, 16, 16, 17, 17,
    16, 19, 17, 18, 16, 16, 17, 17, 16, 19, 17, 18, 15, 15, 15, 15, 15, 15, 15, 15, 15, 15, 15, 15,
    15, 15, 15, 15, 21, 21, 22, 22, 21, 24, 22, 23, 26, 26, 27, 27, 26, 29, 27, 28, 20, 20, 20, 20,
    20, 20, 20, 20, 25, 25, 25, 25, 25, 25, 25, 25, 26, 26, 27, 27, 26, 29, 27, 28, 26, 26, 27, 27,
    26, 29, 27, 28, 25, 25, 25, 25, 25, 25, 25, 25, 25, 25, 25, 25, 25, 25, 25, 25,
];

// The constant in a local, to be lent: every use of it writes it anew.
#[tactic(auto, unfolding(rules::specs::LampTable::lamp_table, section::specs::Items::items, rules::specs::LampTable::lamp_entry, rules::specs::LampTable::entry_of, rules::specs::LampTable::lamps_of, rules::specs::Indications::circulation, rules::specs::Indications::troncon))]
pub fn table() -> LampTable
    ensures { result ≡ lamp_table }
{
    LAMP_TABLE
}

// The entry of the lent table at an index.
#[tactic(auto, using(section::proofs::Items::item_at), unfolding(rules::specs::LampTable::lamp_table))]
pub fn look_up(table: &LampTable, index: u8) -> u8
    requires { table.now ≡ lamp_table }
    ensures { result ≡ lamp_entry index }
{
    let at = index as usize;
    table[at]
}

// The entry at an index.
pub fn entry(index: u8) -> u8
    ensures { result ≡ lamp_entry index }
{
    let whole = table();
    look_up(&whole, index)
}
