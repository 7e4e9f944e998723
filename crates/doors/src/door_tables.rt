// The door to the tables of a file.
ghost use Rattle.planner.specs.Answers.{answered};
ghost use Rattle.doors.specs.Promises.{TablesTold, TablesDoor};

use base::Reason;
use calls::{RESULT, tell};
use doorway::SHUT;
use planner::{Figures, Refusal, tables_of, told};
use table_bytes::bytes_of;

// 15 where the bytes do not fit; what is lent beyond them stays as it was.
fn listing_bytes(file: &[u8], out: &mut [u8]) -> Result<Figures, Refusal>
    ensures { TablesTold file.now out.old (answered result) out.new }
{
    let listing = tables_of(file)?;
    let made = bytes_of(listing.tables);
    let n = made.count;
    if out.len() < n {
        return Err(Refusal::from(Reason::NoRoom));
    }
    let bytes = made.bytes;
    out[..n].copy_from_slice(&bytes[..n]);
    Ok(Figures {
        horizon: listing.horizon,
        energy: 0,
        count: n as u32,
    })
}

pub fn door_tables(file: &[u8], out: &mut [u8], res: &mut [u8]) -> u8
    ensures { TablesDoor file.now out.old res.old result out.new res.new }
{
    if res.len() < RESULT {
        return SHUT;
    }
    tell(told(listing_bytes(file, out)), res)
}
