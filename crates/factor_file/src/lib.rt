// The factor file: the opening of a job by its bytes, a header and records of structure factors; and the file of a job, written.
#![tactic(auto)]

pub mod writer; // writer.rt: the file of a job
pub mod orbits; // orbits.rt: the lowest place of an orbit, which has its record
pub mod record_order; // record_order.rt: the order of the records
pub mod file; // file.rt: the bytes of a file
pub mod open_file; // open_file.rt: the opening of a job by a file
pub mod file_header; // file_header.rt: the header of a file, read by itself
mod records; // records.rt: its records, recorded in the job one after another

ghost use Rattle.std.specs.Prelude.{◌≡◌};
ghost use Rattle.factor_file.specs.Orders.{FileRefusals};

use refusals::Refusal;

// Why a file opens no job: the refusal, and the place, from 0, of the record at fault, 0 where it is no record.
#[derive(Clone, Copy, Debug, PartialEq, Eq)]
pub struct FileRefusal {
    pub refusal: Refusal,
    pub place: u32,
}

impl From<Refusal> for FileRefusal {
    ghost from_gives = { λ r e. e ≡ record { refusal = r; place = 0 } };

    fn from(refusal: Refusal) -> FileRefusal {
        FileRefusal { refusal, place: 0 }
    }
}

// The refusals of a file's record and of the writer stand in the papers' order.
pub fn refusal_order()
    ensures { FileRefusals }
{}
