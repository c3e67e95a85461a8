// The forms of words.
ghost use Rattle.std.specs.Prelude.{◌≡◌, ◌≤◌, IfSome, map, option_map, string_bytes, if◌then◌else◌};
ghost use Rattle.std.specs.Char.{is_ascii_digit};
ghost use Rattle.std.specs.List.{list_all};
ghost use Rattle.hull_cli.specs.Requests.{form_seen};
ghost use Rattle.hull_cli.specs.Words as spec;
ghost use Rattle.hull_cli.specs.Words.{form_of, IsServed, HasTables, section_form, tables_form, is_name_word, is_number_word, number_in};

use hull_report::Command;

/// The most digits of a station's number.
const STATION_DIGITS: usize = 6;

/// The most digits of a draft.
const DRAFT_DIGITS: usize = 6;

/// The greatest number of a station's digits.
const MOST_STATION: u32 = 999_999;

/// The greatest draft, in mm.
const MOST_DRAFT: u32 = 131_071;

/// The most digits of the number of a made ship.
const SEED_DIGITS: usize = 10;

/// What the words ask for: a command with its names and numbers.
#[derive(Clone, Copy, Debug)]
pub(crate) enum Request<'a> {
    /// `section OFFSETS STATION DRAFT`: stations count from 0, the draft is in mm.
    Section {
        offsets: &'a str,
        station: u32,
        draft: u32,
    },
    /// `COMMAND JOB OFFSETS`: tables of what the job asks for.
    Tables {
        command: Command,
        job: &'a str,
        offsets: &'a str,
    },
    /// `make NUMBER`: a made ship.
    Make {
        seed: u32,
    },
}

/// The request that the words make, or None where they are in no form.
pub(crate) fn request_of(words: &[String]) -> Option<Request<'_>>
    ensures form { option_map form_seen result ≡ form_of (map string_bytes words.now) }
    ensures served { IfSome result (λ request. IsServed (form_seen request)) }
{
    match words {
        [command, offsets, station, draft] if command.as_str() == "section" => {
            section_request(offsets.as_str(), station.as_str(), draft.as_str())
        }
        [command, job, offsets] => {
            tables_request(command.as_str(), job.as_str(), offsets.as_str())
        }
        [command, number] if command.as_str() == "make" => make_request(number.as_str()),
        _ => None,
    }
}

fn section_request<'a>(offsets: &'a str, station: &str, draft: &str) -> Option<Request<'a>>
    ensures form { option_map form_seen result ≡ section_form offsets.now (number_in 6 999999 station.now) (number_in 6 131071 draft.now) }
    ensures served { IfSome result (λ request. IsServed (form_seen request)) }
{
    let station = number_of(station, STATION_DIGITS, MOST_STATION)?;
    let draft = number_of(draft, DRAFT_DIGITS, MOST_DRAFT)?;
    if !is_name(offsets) {
        return None;
    }
    Some(Request::Section {
        offsets,
        station,
        draft,
    })
}

fn tables_request<'a>(command: &str, job: &'a str, offsets: &'a str) -> Option<Request<'a>>
    ensures form { option_map form_seen result ≡ tables_form (spec.table_command command.now) job.now offsets.now }
    ensures served { IfSome result (λ request. IsServed (form_seen request)) }
{
    let command = table_command(command)?;
    if !is_name(job) || !is_name(offsets) {
        return None;
    }
    Some(Request::Tables {
        command,
        job,
        offsets,
    })
}

fn make_request<'a>(number: &str) -> Option<Request<'a>>
    ensures form { option_map form_seen result ≡ option_map spec.make (number_in 10 4294967295 number.now) }
    ensures served { IfSome result (λ request. IsServed (form_seen request)) }
{
    let seed = number_of(number, SEED_DIGITS, u32::MAX)?;
    Some(Request::Make { seed })
}

// The command of this word, where it is given a job.
fn table_command(word: &str) -> Option<Command>
    ensures command { result ≡ spec.table_command word.now }
    ensures served { IfSome result HasTables }
{
    match word {
        "hydro" => Some(Command::Hydro),
        "bonjean" => Some(Command::Bonjean),
        "cross" => Some(Command::Cross),
        "stability" => Some(Command::Stability),
        "damage" => Some(Command::Damage),
        "floodable" => Some(Command::Floodable),
        "all" => Some(Command::All),
        _ => None,
    }
}

// A file's name: a word that isn't empty and doesn't begin with a dash.
fn is_name(word: &str) -> bool
    ensures { result ≡ is_name_word word.now }
{
    match word.as_bytes() {
        [] => false,
        [first, ..] => *first != b'-',
    }
}

// A number of at most so many decimal digits, at most this.
fn number_of(word: &str, digits: usize, most: u32) -> Option<u32>
    requires { digits ≤ 19 }
    ensures value { result ≡ number_in digits most word.now }
    ensures within { IfSome result (λ number. number ≤ most) }
{
    if !is_number(word, digits) {
        return None;
    }
    match word.parse::<u64>() {
        Ok(number) => {
            if number <= u64::from(most) {
                Some(number as u32)
            } else {
                None
            }
        }
        Err(_) => None,
    }
}

fn is_number(word: &str, digits: usize) -> bool
    ensures { result ≡ is_number_word digits word.now }
{
    1 <= word.len() && word.len() <= digits && are_digits(word.as_bytes())
}

fn are_digits(bytes: &[u8]) -> bool
    ensures { result ≡ list_all is_ascii_digit bytes.now }
{
    bytes.iter().all(|b| b.is_ascii_digit())
}
