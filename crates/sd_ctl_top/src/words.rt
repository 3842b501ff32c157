//! What the words of the second program mean.
ghost use Rattle.std.specs.Prelude.{◌≡◌, ◌≤◌, ◌<◌, ◌+◌, ◌^◌, Some, drop, length, map, option_map, string_bytes, take, IfSome};
ghost use Rattle.std.specs.Str.{bytes_eq};
ghost use Rattle.sd_drill.specs.Budgets.{IsBudget};
ghost use Rattle.sd_ctl_top.specs.Parsed.{IsGranted, named};
ghost use Rattle.sd_ctl_top.specs.Words as meaning;

use sd_drill::Budget;
use sd_num::read_u64;
use sd_record::RecordFiles;
use sd_resume::command::Files;
use sd_search::Settings;

/// A command, with the names of its files and its numbers.
#[derive(Clone, Copy)]
pub(crate) enum Command<'w> {
    Search {
        topology: &'w str,
        settings: Settings,
    },
    Renew {
        topology: &'w str,
        plan: &'w str,
        absent: &'w str,
        settings: Settings,
    },
    Why {
        topology: &'w str,
    },
    Bounds {
        topology: &'w str,
        plan: &'w str,
        budget: Budget,
    },
    Resume {
        files: Files<'w>,
    },
    Record {
        files: RecordFiles<'w>,
    },
    Merge {
        logs: u64,
        feed: &'w str,
    },
    Version,
}

/// How many logs are merged at most.
const MOST_LOGS: u64 = 4096;

/// How many plans a schedule or a log has at most.
const MOST_PLANS: usize = 64;

/// The number of a word, up to the greatest.
fn read_up_to(word: &str, greatest: u64) -> Option<u64>
    ensures is { result ≡ meaning.read_up_to greatest word.now }
    ensures limit { IfSome result (λ n. n ≤ greatest) }
{
    match read_u64(word.as_bytes()) {
        Ok(number) => if greatest < number {
            None
        } else {
            Some(number)
        },
        Err(_) => None,
    }
}

/// The budget of two words.
fn budget_of(base: &str, hold: &str) -> Option<Budget>
    ensures is { result ≡ meaning.budget_of base.now hold.now }
    ensures limits { IfSome result IsBudget }
{
    let base = read_up_to(base, 1 << 60)?;
    let hold = read_up_to(hold, 1 << 60)?;
    Some(Budget { base, hold })
}

/// The settings of four words.
fn settings_of(base: &str, hold: &str, seed: &str, steps: &str) -> Option<Settings>
    ensures is { result ≡ meaning.settings_of base.now hold.now seed.now steps.now }
    ensures limits { IfSome result (λ settings. IsBudget settings.budget) }
{
    let budget = budget_of(base, hold)?;
    let seed = read_up_to(seed, u64::MAX)?;
    let steps = read_up_to(steps, 1 << 60)?;
    Some(Settings {
        budget,
        seed,
        steps,
    })
}

/// The settings of words, if they are four.
fn settings_among(words: &[String]) -> Option<Settings>
    ensures is { result ≡ meaning.settings_among (map string_bytes words.now) }
    ensures limits { IfSome result (λ settings. IsBudget settings.budget) }
{
    match words {
        [base, hold, seed, steps] => settings_of(
            base.as_str(),
            hold.as_str(),
            seed.as_str(),
            steps.as_str(),
        ),
        _ => None,
    }
}

/// The budget of words, if they are two.
fn budget_among(words: &[String]) -> Option<Budget>
    ensures is { result ≡ meaning.budget_among (map string_bytes words.now) }
    ensures limits { IfSome result IsBudget }
{
    match words {
        [base, hold] => budget_of(base.as_str(), hold.as_str()),
        _ => None,
    }
}

/// The search of the words for its topology and its settings.
fn search_of(words: &[String]) -> Option<Command<'_>>
    ensures is { option_map named result ≡ meaning.search_of (map string_bytes words.now) }
    ensures granted { IfSome result IsGranted }
{
    let [topology, numbers @ ..] = words else {
        return None;
    };
    let settings = settings_among(numbers)?;
    Some(Command::Search {
        topology: topology.as_str(),
        settings,
    })
}

/// The renewal of a topology and a plan, of the words for what is absent and for its settings.
fn renewal_without<'w>(topology: &'w str, plan: &'w str, words: &'w [String]) -> Option<Command<'w>>
    ensures is { option_map named result
        ≡ meaning.renewal_without topology.now plan.now (map string_bytes words.now) }
    ensures granted { IfSome result IsGranted }
{
    let [absent, numbers @ ..] = words else {
        return None;
    };
    let settings = settings_among(numbers)?;
    Some(Command::Renew {
        topology,
        plan,
        absent: absent.as_str(),
        settings,
    })
}

/// The renewal of a topology, of the words for its plan and what follows.
fn renewal_over<'w>(topology: &'w str, words: &'w [String]) -> Option<Command<'w>>
    ensures is { option_map named result
        ≡ meaning.renewal_over topology.now (map string_bytes words.now) }
    ensures granted { IfSome result IsGranted }
{
    let [plan, others @ ..] = words else {
        return None;
    };
    renewal_without(topology, plan.as_str(), others)
}

/// The renewal of the words for its topology and what follows.
fn renewal_of(words: &[String]) -> Option<Command<'_>>
    ensures is { option_map named result ≡ meaning.renewal_of (map string_bytes words.now) }
    ensures granted { IfSome result IsGranted }
{
    let [topology, others @ ..] = words else {
        return None;
    };
    renewal_over(topology.as_str(), others)
}

/// The reason over a topology, if no word follows.
fn why_of(words: &[String]) -> Option<Command<'_>>
    ensures is { option_map named result ≡ meaning.why_of (map string_bytes words.now) }
    ensures granted { IfSome result IsGranted }
{
    match words {
        [topology] => Some(Command::Why {
            topology: topology.as_str(),
        }),
        _ => None,
    }
}

/// The bounds over a topology, of the words for its plan and its budget.
fn bounds_over<'w>(topology: &'w str, words: &'w [String]) -> Option<Command<'w>>
    ensures is { option_map named result
        ≡ meaning.bounds_over topology.now (map string_bytes words.now) }
    ensures granted { IfSome result IsGranted }
{
    let [plan, numbers @ ..] = words else {
        return None;
    };
    let budget = budget_among(numbers)?;
    Some(Command::Bounds {
        topology,
        plan: plan.as_str(),
        budget,
    })
}

/// The bounds of the words for a topology and what follows.
fn bounds_of(words: &[String]) -> Option<Command<'_>>
    ensures is { option_map named result ≡ meaning.bounds_of (map string_bytes words.now) }
    ensures granted { IfSome result IsGranted }
{
    let [topology, others @ ..] = words else {
        return None;
    };
    bounds_over(topology.as_str(), others)
}

/// The place of the first word that is a slash, if there is one.
fn slash_in(words: &[String]) -> Option<usize>
    ensures is { result ≡ meaning.slash_from 0 (map string_bytes words.now) }
    ensures within { IfSome result (λ place. place < length words.now) }
{
    for place in 0..words.len() {
        if words[place].as_str() == "/" {
            return Some(place);
        }
    }
    None
}

/// Whether two words are the same.
fn is_same(one: &str, other: &str) -> bool
    ensures { result ≡ bytes_eq one.now other.now }
{
    one == other
}

/// Whether the words are the same, of as many.
fn are_same(one: &[String], other: &[String]) -> bool
    requires { length one.now ≡ length other.now }
    ensures { result
        ≡ meaning.same_words (map string_bytes one.now) (map string_bytes other.now) }
{
    for place in 0..one.len() {
        if !is_same(one[place].as_str(), other[place].as_str()) {
            return false;
        }
    }
    true
}

/// The words up to a place.
fn words_to(words: &[String], place: usize) -> &[String]
    requires { place ≤ length words.now }
    ensures { result.now ≡ take place words.now }
{
    &words[..place]
}

/// The words from a place on.
fn words_from(words: &[String], place: usize) -> &[String]
    requires { place ≤ length words.now }
    ensures { result.now ≡ drop place words.now }
{
    &words[place..]
}

/// All words but the last.
fn all_but_last(words: &[String]) -> &[String]
    requires { 1 ≤ length words.now }
    ensures are { map string_bytes result.now
        ≡ meaning.all_but_last (map string_bytes words.now) }
    ensures count { length result.now + 1 ≡ length words.now }
{
    words_to(words, words.len() - 1)
}

/// The last word.
fn last_word(words: &[String]) -> &str
    requires { 1 ≤ length words.now }
    ensures { result.now ≡ meaning.last_word (map string_bytes words.now) }
{
    let last = words.len() - 1;
    words[last].as_str()
}

/// The opening for a schedule, whose plans are the last of those of the schedule.
fn resume_over<'w>(
    topology: &'w str,
    plans: &'w [String],
    schedule: &'w str,
    later: &'w [String],
    opening: &'w str,
) -> Option<Command<'w>>
    ensures is { option_map named result
        ≡ meaning.resume_over topology.now (map string_bytes plans.now) schedule.now
        (map string_bytes later.now) opening.now }
    ensures granted { IfSome result IsGranted }
{
    if later.is_empty() {
        return None;
    }
    if plans.len() < later.len() {
        return None;
    }
    if plans.len() > MOST_PLANS {
        return None;
    }
    let left = plans.len() - later.len();
    if !are_same(words_from(plans, left), later) {
        return None;
    }
    let files = Files {
        topology,
        plans,
        schedule,
        left: left as u32,
        opening,
    };
    Some(Command::Resume { files })
}

/// The opening of the words before a slash and after it.
fn resume_parts<'w>(
    topology: &'w str,
    before: &'w [String],
    behind: &'w [String],
) -> Option<Command<'w>>
    ensures is { option_map named result
        ≡ meaning.resume_parts topology.now (map string_bytes before.now)
        (map string_bytes behind.now) }
    ensures granted { IfSome result IsGranted }
{
    if before.len() < 2 {
        return None;
    }
    if behind.len() < 2 {
        return None;
    }
    resume_over(
        topology,
        all_but_last(before),
        last_word(before),
        all_but_last(behind),
        last_word(behind),
    )
}

/// The opening over a topology, of the words that follow.
fn resume_among<'w>(topology: &'w str, words: &'w [String]) -> Option<Command<'w>>
    ensures is { option_map named result
        ≡ meaning.resume_at topology.now (map string_bytes words.now)
        (meaning.slash_from 0 (map string_bytes words.now)) }
    ensures granted { IfSome result IsGranted }
{
    let place = slash_in(words)?;
    resume_parts(
        topology,
        words_to(words, place),
        words_from(words, place + 1),
    )
}

/// The opening of the words for a topology and what follows.
fn resume_of(words: &[String]) -> Option<Command<'_>>
    ensures is { option_map named result ≡ meaning.resume_of (map string_bytes words.now) }
    ensures granted { IfSome result IsGranted }
{
    let [topology, others @ ..] = words else {
        return None;
    };
    resume_among(topology.as_str(), others)
}

/// The recording over a topology, of the words for its plans and its log.
fn record_over<'w>(topology: &'w str, words: &'w [String]) -> Option<Command<'w>>
    ensures is { option_map named result
        ≡ meaning.record_over topology.now (map string_bytes words.now) }
    ensures granted { IfSome result IsGranted }
{
    if words.len() < 2 {
        return None;
    }
    if words.len() > MOST_PLANS + 1 {
        return None;
    }
    let files = RecordFiles {
        topology,
        plans: all_but_last(words),
        log: last_word(words),
    };
    Some(Command::Record { files })
}

/// The recording of the words for a topology and what follows.
fn record_of(words: &[String]) -> Option<Command<'_>>
    ensures is { option_map named result ≡ meaning.record_of (map string_bytes words.now) }
    ensures granted { IfSome result IsGranted }
{
    let [topology, others @ ..] = words else {
        return None;
    };
    record_over(topology.as_str(), others)
}

/// The number of logs of a word.
fn log_count(word: &str) -> Option<u64>
    ensures { result ≡ meaning.log_count word.now }
{
    let count = read_up_to(word, MOST_LOGS)?;
    if count >= 1 { Some(count) } else { None }
}

/// The merge of the words for the number of logs and the feed.
fn merge_of(words: &[String]) -> Option<Command<'_>>
    ensures is { option_map named result ≡ meaning.merge_of (map string_bytes words.now) }
    ensures granted { IfSome result IsGranted }
{
    match words {
        [count, feed] => {
            let logs = log_count(count.as_str())?;
            Some(Command::Merge {
                logs,
                feed: feed.as_str(),
            })
        }
        _ => None,
    }
}

/// The version, if no word follows.
fn version_of(words: &[String]) -> Option<Command<'_>>
    ensures is { option_map named result ≡ meaning.version_of (map string_bytes words.now) }
    ensures granted { IfSome result IsGranted }
{
    if words.is_empty() {
        Some(Command::Version)
    } else {
        None
    }
}

/// The command of the words, if they are in the table.
pub(crate) fn command_of(words: &[String]) -> Option<Command<'_>>
    ensures is { option_map named result ≡ meaning.command_of (map string_bytes words.now) }
    ensures granted { IfSome result IsGranted }
{
    let [word, others @ ..] = words else {
        return None;
    };
    if word.as_str() == "search" {
        search_of(others)
    } else if word.as_str() == "renew" {
        renewal_of(others)
    } else if word.as_str() == "why" {
        why_of(others)
    } else if word.as_str() == "bounds" {
        bounds_of(others)
    } else if word.as_str() == "resume" {
        resume_of(others)
    } else if word.as_str() == "record" {
        record_of(others)
    } else if word.as_str() == "merge" {
        merge_of(others)
    } else if word.as_str() == "version" {
        version_of(others)
    } else {
        None
    }
}
