// Writes the rows of a dump, one after the other.
ghost use Rattle.std.specs.Prelude.{◌≡◌, ◌++◌, ℕ, List, OnOk, IfOk, codes, count_by, is_some};
ghost use Rattle.split_reports.specs.DumpBetween.{IsBetweenRows};
ghost use Rattle.split_reports.specs.DumpRows.{header_line, kind_name, row_line};
ghost use Rattle.sealed_core.specs.Host.{instance_view};

use bid_rules::{Bid, Facts};
use csv::{Writer, WriterBuilder};
use itoa::Buffer;
use sealed_core::Instance;
use split_base::NoMemory;
use std::alloc::Global;

// A writer that has written the names of the fields.
#[tactic(auto, unfolding(crate::specs::DumpRows::header_line))]
pub(crate) fn header_written(alloc: Global) -> Result<Writer<Vec<u8>>, NoMemory>
    ensures { IfOk result (λ writer. IsBetweenRows writer header_line) }
{
    let mut writer = WriterBuilder::new().from_writer(Vec::new(alloc));
    let fields: [&[u8]; 7] = [
        b"id",
        b"kind",
        b"title",
        b"members",
        b"deadline",
        b"closed",
        b"bids",
    ];
    match writer.write_fields(&fields) {
        Ok(()) => Ok(writer),
        Err(_) => Err(NoMemory),
    }
}

// Writes the row of an instance.
#[tactic(auto, unfolding(crate::specs::DumpRows::row_line))]
pub(crate) fn write_row(
    writer: &mut Writer<Vec<u8>>,
    number: u32,
    instance: &Instance,
) -> Result<(), NoMemory>
    ensures { OnOk result ((text : List ℕ) → IsBetweenRows writer.old text
        → IsBetweenRows writer.new (text ++ row_line number (instance_view instance.now))) }
{
    let mut id = Buffer::new();
    let mut members = Buffer::new();
    let mut deadline = Buffer::new();
    let mut bids = Buffer::new();
    let closed: &[u8] = if instance.closed { b"yes" } else { b"no" };
    let fields: [&[u8]; 7] = [
        id.format(number).as_bytes(),
        kind_of(&instance.creation.facts),
        instance.creation.title.as_str().as_bytes(),
        members.format(instance.creation.members.len()).as_bytes(),
        deadline.format(instance.creation.deadline).as_bytes(),
        closed,
        bids.format(bid_count(instance.bids.as_slice())).as_bytes(),
    ];
    match writer.write_fields(&fields) {
        Ok(()) => Ok(()),
        Err(_) => Err(NoMemory),
    }
}

// The name of the facts' kind.
fn kind_of(facts: &Facts) -> &[u8]
    ensures { result.now ≡ kind_name facts.now }
{
    match facts {
        Facts::Rent(_) => b"rent",
        Facts::Goods(_) => b"goods",
        Facts::Fares(_) => b"fares",
    }
}

// How many members have a bid.
fn bid_count(bids: &[Option<Bid>]) -> usize
    ensures { result ≡ count_by is_some bids.now }
{
    bids.iter().filter(|bid| bid.is_some()).count()
}
