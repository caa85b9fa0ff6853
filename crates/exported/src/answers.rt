// What the calls answer, as numbers, for programs in C: crate exported passes them on.
//
// Every answer has a number: 0, or the paper's number of the refusal. What only an accepted call gives is zero in a refused one.
ghost use Rattle.std.specs.Prelude.{◌≡◌};
ghost use Rattle.job.specs.Answers.{said, job_after, said_open, said_point, said_factor, said_power, reply_of};
ghost use Rattle.combined.specs.Answers.{said_count};
ghost use Rattle.factor_file.specs.Answers.{said_file, said_header, said_size};
ghost use Rattle.factor_file.specs.HeaderRead.{not_named};
ghost use Rattle.faults.specs.Faults.{said_faults};
ghost use Rattle.output.specs.Answers.{said_fill};
ghost use Rattle.exported.specs.Answers.{no_axis, no_job, opening_coded, file_answer_coded, faults_coded, point_coded};
ghost use Rattle.exported.specs.Answers.{factor_coded, power_coded, writing_coded};
ghost use Rattle.exported.specs.Answers.{header_coded, length_coded, count_coded};

use factor_file::FileRefusal;
use factor_file::file_header::FileHeader;
use faults::Faults;
use job::{Axis, Job, reply};
use numbers::Pair;
use refusals::Refusal;

// The answer of an opening, a record, a synthesis and an analysis.
#[repr(C)]
#[derive(Clone, Copy)]
pub struct JobCoded {
    pub number: u32,
    pub job: Job,
}

// The answers of the two readings: a density has a sign, a factor is two residues.
#[repr(C)]
#[derive(Clone, Copy)]
pub struct PointCoded {
    pub number: u32,
    pub density: i32,
}

#[repr(C)]
#[derive(Clone, Copy)]
pub struct FactorCoded {
    pub number: u32,
    pub a: u32,
    pub b: u32,
}

// The answer of both powers: a residue.
#[repr(C)]
#[derive(Clone, Copy)]
pub struct PowerCoded {
    pub number: u32,
    pub power: u32,
}

// The answer of the opening of a file: the place is that of the refused record.
#[repr(C)]
#[derive(Clone, Copy)]
pub struct FileCoded {
    pub number: u32,
    pub place: u32,
    pub job: Job,
}

// The answer of a call that fills outputs: the writer's, and that of the windows of a run.
#[repr(C)]
#[derive(Clone, Copy)]
pub struct WriteCoded {
    pub number: u32,
    pub written: usize,
}

// The fewest records at fault of a file: how many, none, one or two, and their places.
#[repr(C)]
#[derive(Clone, Copy)]
pub struct FaultsCoded {
    pub count: u32,
    pub first: u32,
    pub second: u32,
}

// What a file's header names.
#[repr(C)]
#[derive(Clone, Copy)]
pub struct HeaderCoded {
    pub number: u32,
    pub group: u32,
    pub modulus: u32,
    pub a: Axis,
    pub b: Axis,
    pub c: Axis,
    pub records: u32,
    pub numbers: u32,
}

// How long the file is that the writer would write.
#[repr(C)]
#[derive(Clone, Copy)]
pub struct LengthCoded {
    pub number: u32,
    pub length: usize,
}

// The answer of the reading of a combined map.
#[repr(C)]
#[derive(Clone, Copy)]
pub struct CountCoded {
    pub number: u32,
    pub density: i64,
}

impl From<Result<Job, Refusal>> for JobCoded {
    ghost from_gives = { λ a c. c ≡ opening_coded (said_open a) };

    fn from(answer: Result<Job, Refusal>) -> JobCoded {
        match answer {
            Ok(opened) => JobCoded {
                number: 0,
                job: opened,
            },
            Err(refusal) => JobCoded {
                number: refusals::number_of(refusal),
                job: no_job(),
            },
        }
    }
}

impl From<Result<Job, FileRefusal>> for FileCoded {
    ghost from_gives = { λ a c. c ≡ file_answer_coded (said_file a) };

    fn from(answer: Result<Job, FileRefusal>) -> FileCoded {
        match answer {
            Ok(opened) => FileCoded {
                number: 0,
                place: 0,
                job: opened,
            },
            Err(refused) => FileCoded {
                number: refusals::number_of(refused.refusal),
                place: refused.place,
                job: no_job(),
            },
        }
    }
}

impl From<Faults> for FaultsCoded {
    ghost from_gives = { λ a c. c ≡ faults_coded (said_faults a) };

    fn from(answer: Faults) -> FaultsCoded {
        match answer {
            Faults::NoFault => FaultsCoded {
                count: 0,
                first: 0,
                second: 0,
            },
            Faults::One(place) => FaultsCoded {
                count: 1,
                first: place,
                second: 0,
            },
            Faults::Two(first, second) => FaultsCoded {
                count: 2,
                first,
                second,
            },
        }
    }
}

impl JobCoded {
    // Of a record, a synthesis and an analysis: a refused one leaves the job as it was held.
    pub fn answered(held: Job, answer: Result<Job, Refusal>) -> JobCoded
        ensures { result ≡ record { number = (reply_of (said answer)).number; job = job_after held answer } }
    {
        JobCoded {
            number: reply::of_answer(answer).number,
            job: answer.unwrap_or(held),
        }
    }
}

impl From<Result<i32, Refusal>> for PointCoded {
    ghost from_gives = { λ a c. c ≡ point_coded (said_point a) };

    fn from(answer: Result<i32, Refusal>) -> PointCoded {
        match answer {
            Ok(density) => PointCoded { number: 0, density },
            Err(refusal) => PointCoded {
                number: refusals::number_of(refusal),
                density: 0,
            },
        }
    }
}

impl From<Result<Pair, Refusal>> for FactorCoded {
    ghost from_gives = { λ a c. c ≡ factor_coded (said_factor a) };

    fn from(answer: Result<Pair, Refusal>) -> FactorCoded {
        match answer {
            Ok(x) => FactorCoded {
                number: 0,
                a: x.re,
                b: x.im,
            },
            Err(refusal) => FactorCoded {
                number: refusals::number_of(refusal),
                a: 0,
                b: 0,
            },
        }
    }
}

impl From<Result<u32, Refusal>> for PowerCoded {
    ghost from_gives = { λ a c. c ≡ power_coded (said_power a) };

    fn from(answer: Result<u32, Refusal>) -> PowerCoded {
        match answer {
            Ok(power) => PowerCoded { number: 0, power },
            Err(refusal) => PowerCoded {
                number: refusals::number_of(refusal),
                power: 0,
            },
        }
    }
}

impl From<Result<usize, Refusal>> for WriteCoded {
    ghost from_gives = { λ a c. c ≡ writing_coded (said_fill a) };

    fn from(answer: Result<usize, Refusal>) -> WriteCoded {
        match answer {
            Ok(written) => WriteCoded { number: 0, written },
            Err(refusal) => WriteCoded {
                number: refusals::number_of(refusal),
                written: 0,
            },
        }
    }
}

impl From<Result<FileHeader, Refusal>> for HeaderCoded {
    ghost from_gives = { λ a c. c ≡ header_coded (said_header a) };

    fn from(answer: Result<FileHeader, Refusal>) -> HeaderCoded {
        match answer {
            Ok(found) => HeaderCoded {
                number: 0,
                group: found.group,
                modulus: found.modulus,
                a: found.a,
                b: found.b,
                c: found.c,
                records: found.records,
                numbers: found.numbers,
            },
            Err(refusal) => header_refused(refusals::number_of(refusal)),
        }
    }
}

fn header_refused(number: u32) -> HeaderCoded
    ensures { result ≡ header_coded (not_named number) }
{
    HeaderCoded {
        number,
        group: 0,
        modulus: 0,
        a: no_axis(),
        b: no_axis(),
        c: no_axis(),
        records: 0,
        numbers: 0,
    }
}

impl From<Result<usize, Refusal>> for LengthCoded {
    ghost from_gives = { λ a c. c ≡ length_coded (said_size a) };

    fn from(answer: Result<usize, Refusal>) -> LengthCoded {
        match answer {
            Ok(length) => LengthCoded { number: 0, length },
            Err(refusal) => LengthCoded {
                number: refusals::number_of(refusal),
                length: 0,
            },
        }
    }
}

impl From<Result<i64, Refusal>> for CountCoded {
    ghost from_gives = { λ a c. c ≡ count_coded (said_count a) };

    fn from(answer: Result<i64, Refusal>) -> CountCoded {
        match answer {
            Ok(density) => CountCoded { number: 0, density },
            Err(refusal) => CountCoded {
                number: refusals::number_of(refusal),
                density: 0,
            },
        }
    }
}

fn no_axis() -> Axis
    ensures { result ≡ no_axis }
{
    Axis {
        length: 0,
        factors: 0,
    }
}

pub fn no_job() -> Job
    ensures { result ≡ no_job }
{
    Job {
        group: 0,
        modulus: 0,
        a: Axis {
            length: 0,
            factors: 0,
        },
        b: Axis {
            length: 0,
            factors: 0,
        },
        c: Axis {
            length: 0,
            factors: 0,
        },
        state: 0,
    }
}
