// Why there is no report.
ghost use Rattle.std.specs.Prelude.{◌≡◌, ◌++◌, IfOk, OnOk, string_bytes};

use crate::faults::{push_job_fault, push_load_fault, push_offset_fault};
use crate::refused::{push_number, push_place, push_word};
use exact_fraction::Memory;
use job_reader::JobFault;
use loading_sheet::LoadFault;
use offset_reader::OffsetFault;
use std::alloc::{AllocError, AllocFailed, Global};

/// The files that a run reads.
#[derive(Clone, Copy, Debug)]
pub enum File {
    /// The job file.
    Job,
    /// The offset file.
    Offsets,
}

/// Why a run writes no report.
#[derive(Clone, Copy, Debug)]
pub enum Stop {
    /// What was asked for is refused.
    Refused(Refusal),
    /// The file's fetch failed.
    Unread(File),
    /// Memory was refused.
    NoMemory,
}

/// A refusal, by its cause.
#[derive(Clone, Copy, Debug)]
pub enum Refusal {
    /// The words are in no form.
    Usage,
    /// The file has too many bytes.
    Long(File),
    /// The job file has a fault.
    Job(JobFault),
    /// The offset file has a fault.
    Offsets(OffsetFault),
    /// The hull has no station of this number.
    Station(u32),
    /// The items of the job make no loading.
    Load(LoadFault),
    /// The ship with this mass in kg is heavier than the water that its whole hull displaces; `six` is six times the hull's
    /// volume in mm³.
    Heavy { mass: u64, six: i128 },
}

impl From<Memory> for Stop {
    ghost use Rattle.report_run.specs.declared.stop.Stop.TheVariants.{NoMemory};

    ghost from_gives = { λ _ stop. stop ≡ NoMemory };

    fn from(_: Memory) -> Stop {
        Stop::NoMemory
    }
}

impl From<AllocError> for Stop {
    ghost use Rattle.report_run.specs.declared.stop.Stop.TheVariants.{NoMemory};

    ghost from_gives = { λ _ stop. stop ≡ NoMemory };

    fn from(_: AllocError) -> Stop {
        Stop::NoMemory
    }
}

impl<T: Drop> From<AllocFailed<T>> for Stop {
    ghost use Rattle.report_run.specs.declared.stop.Stop.TheVariants.{NoMemory};

    ghost from_gives = { λ _ stop. stop ≡ NoMemory };

    fn from(_: AllocFailed<T>) -> Stop {
        Stop::NoMemory
    }
}

impl File {
    ghost use Rattle.report_run.specs.Refusals.{file_word, unread_text};

    fn word(&self) -> &'static str
        ensures { result.now ≡ file_word self.now }
    {
        match self {
            File::Job => "job",
            File::Offsets => "offsets",
        }
    }

    /// The line that is written where the file could not be read: `fault read` and the file's word. Fails for want of
    /// memory.
    pub fn unread(&self, alloc: Global) -> Result<Vec<u8>, Memory>
        ensures { IfOk result (λ text. text.items ≡ unread_text self.now) }
    {
        let mut text = String::from_str(alloc, "fault read")?;
        push_word(&mut text, self.word())?;
        text.push_str("\n")?;
        Ok(text.into_bytes())
    }
}

impl Refusal {
    ghost use Rattle.report_run.specs.Refusals.{cause_text, refusal_text};

    /// The line that is written: `refused` and the cause, with its words and numbers. Fails for want of memory.
    pub fn text(&self, alloc: Global) -> Result<Vec<u8>, Memory>
        ensures { IfOk result (λ text. text.items ≡ refusal_text self.now) }
    {
        let mut text = String::from_str(alloc, "refused")?;
        self.push_cause(&mut text)?;
        text.push_str("\n")?;
        Ok(text.into_bytes())
    }

    fn push_cause(&self, text: &mut String) -> Result<(), Memory>
        ensures { OnOk result (string_bytes text.new ≡ string_bytes text.old ++ cause_text self.now) }
    {
        match self {
            Refusal::Usage => push_word(text, "usage"),
            Refusal::Long(file) => {
                push_word(text, "long")?;
                push_word(text, file.word())
            }
            Refusal::Job(fault) => {
                push_word(text, "job")?;
                push_job_fault(text, fault)
            }
            Refusal::Offsets(fault) => {
                push_word(text, "offsets")?;
                push_offset_fault(text, fault)
            }
            Refusal::Station(station) => push_place(text, "station", *station),
            Refusal::Load(fault) => {
                push_word(text, "load")?;
                push_load_fault(text, fault)
            }
            Refusal::Heavy { mass, six } => {
                push_word(text, "heavy")?;
                push_number(text, *mass)?;
                push_number(text, *six)
            }
        }
    }
}
