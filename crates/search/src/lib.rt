// The search of a table for a run of free blocks, for the second program to compare: the calls of an end do not tell in how many turns it ends.
#![tactic(auto)]

ghost use Rattle.std.specs.Prelude.{◌≡◌};
ghost use Rattle.search.specs.Told.{search_number};

// Searches the transmit table in the bytes of both for n free blocks, among the first `block_count`. The low 16 bits of the answer are the turns,
// the others where the run starts, counted from 1, or 0. It is 0 where the bytes are not both tables, have not so many blocks, or n is 0.
#[unsafe(no_mangle)]
pub extern "C" fn petrelknob_search(both: &[u8], block_count: u32, n: u32) -> u32
    ensures { result ≡ search_number both.now block_count n }
{
    let Some(both) = both.as_array() else {
        return 0;
    };
    if region::MAX_BLOCKS < block_count {
        return 0;
    }
    if n == 0 {
        return 0;
    }
    let searched = tables::search(both, tables::SENT, block_count as u16, n as usize);
    let turns = searched.turns as u32;
    match searched.found {
        None => turns,
        Some(start) => 65536 * (start as u32 + 1) + turns,
    }
}
