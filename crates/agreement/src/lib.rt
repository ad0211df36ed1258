// Whether stored bytes are what the library makes of a day file.

#![tactic(auto)]

ghost use Rattle.std.specs.Prelude.{◌≡◌, true, ◌+◌, replicate};
ghost use Rattle.layout.specs.Layout.{most_steps};
ghost use Rattle.listing.specs.declared.sheets.Sheet.{Sheet};
ghost use Rattle.listing.specs.Sheet.{room};
ghost use Rattle.agreement.specs.Made.{made};

use listing::sheets::{PANEL_ROOM, Sheet, panel_room, print};

const SHEET_ROOM: usize = PANEL_ROOM + 1;

// Room for stored bytes, one more than the longest panel has: those that fill it differ.
#[tactic(auto, unfolding(listing::specs::Sheet::room, listing::specs::Sheet::line_room))]
pub fn sheet_room() -> [u8; SHEET_ROOM]
    ensures { result ≡ replicate (room Sheet.Panel most_steps + 1) 0 }
{
    [0; SHEET_ROOM]
}

// Whether the stored bytes are what is made of the file. The buffer has room for every sheet.
#[tactic(auto, using(text::proofs::CopiedOut::within, text::proofs::CopiedOut::part, crate::proofs::Laws::made_printed, crate::proofs::Laws::fits_the_panels_room, crate::proofs::Laws::never_refused))]
pub fn agrees(sheet: Sheet, file: &[u8], stored: &[u8]) -> bool
    ensures file_value { result ≡ true → made sheet file.now ≡ stored.now }
    ensures value { made sheet file.now ≡ stored.now → result ≡ true }
{
    let mut buffer = panel_room();
    let copied = print(sheet, file, &mut buffer);
    let Ok(length) = copied else {
        return false;
    };
    check::same(&buffer[0..length], stored)
}
