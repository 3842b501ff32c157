//! What the words of the command mean.
ghost use Rattle.std.specs.Prelude.{◌≡◌, ◌≤◌, ◌&&◌, ◌^◌, map, option_map, string_bytes, IfSome};
ghost use Rattle.sd_gen.specs.command.Sizes.{IsWithin};
ghost use Rattle.sd_drill.specs.Budgets.{IsBudget};
ghost use Rattle.sd_top.specs.Parsed.{IsGranted, named};
ghost use Rattle.sd_top.specs.Words as meaning;

use sd_commands::replay::Files;
use sd_drill::Budget;
use sd_gen::command::FabricSize;
use sd_num::read_u64;

/// A command, with the names of its files and its numbers.
#[derive(Clone, Copy)]
pub(crate) enum Command<'w> {
    Solo {
        schedule: &'w str,
    },
    Plan {
        topology: &'w str,
    },
    Check {
        topology: &'w str,
        plan: &'w str,
    },
    Renew {
        topology: &'w str,
        plan: &'w str,
        absent: &'w str,
    },
    Replay {
        files: Files<'w>,
    },
    Case {
        number: u64,
        fabric: FabricSize,
    },
    Migrate {
        topology: &'w str,
    },
    Order {
        files: Files<'w>,
    },
    Twoway {
        topology: &'w str,
        exchanges: &'w str,
    },
    Drill {
        topology: &'w str,
        plan: &'w str,
        budget: Budget,
    },
}

/// How many plans a command has at most.
const MOST_PLANS: usize = 64;

/// The command of a word with the name of one file.
fn with_one_file<'w>(word: &str, file: &'w str) -> Option<Command<'w>>
    ensures { option_map named result ≡ meaning.with_one_file word.now file.now }
{
    if word == "solo" {
        Some(Command::Solo { schedule: file })
    } else if word == "plan" {
        Some(Command::Plan { topology: file })
    } else if word == "migrate" {
        Some(Command::Migrate { topology: file })
    } else {
        None
    }
}

/// The command of a word with the names of two files.
fn with_two_files<'w>(word: &str, first: &'w str, second: &'w str) -> Option<Command<'w>>
    ensures { option_map named result ≡ meaning.with_two_files word.now first.now second.now }
{
    if word == "check" {
        Some(Command::Check {
            topology: first,
            plan: second,
        })
    } else if word == "twoway" {
        Some(Command::Twoway {
            topology: first,
            exchanges: second,
        })
    } else {
        None
    }
}

/// The number of a word, from the least to the greatest.
fn number_from(word: &str, low: u64, high: u64) -> Option<u64>
    ensures is { result ≡ meaning.number_from low high word.now }
    ensures limits { IfSome result (λ n. (low ≤ n) × (n ≤ high)) }
{
    match read_u64(word.as_bytes()) {
        Ok(number) => if low <= number && number <= high {
            Some(number)
        } else {
            None
        },
        Err(_) => None,
    }
}

/// The sizes of the words for leaves and spines.
fn fabric_of(leaves: &str, spines: &str) -> Option<FabricSize>
    ensures is { result ≡ meaning.fabric_of leaves.now spines.now }
    ensures limits { IfSome result IsWithin }
{
    let leaves = number_from(leaves, 2, 256)?;
    let spines = number_from(spines, 3, 32)?;
    Some(FabricSize {
        leaves: leaves as u32,
        spines: spines as u32,
    })
}

/// The case of the words for its number and its sizes.
fn case_of<'w>(number: &str, leaves: &str, spines: &str) -> Option<Command<'w>>
    ensures is { option_map named result ≡ meaning.case_of number.now leaves.now spines.now }
    ensures granted { IfSome result IsGranted }
{
    let number = number_from(number, 0, u64::MAX)?;
    let fabric = fabric_of(leaves, spines)?;
    Some(Command::Case { number, fabric })
}

/// The command of a word with three words after it.
fn with_three<'w>(
    word: &str,
    first: &'w str,
    second: &'w str,
    third: &'w str,
) -> Option<Command<'w>>
    ensures is { option_map named result
        ≡ meaning.with_three word.now first.now second.now third.now }
    ensures granted { IfSome result IsGranted }
{
    if word == "renew" {
        Some(Command::Renew {
            topology: first,
            plan: second,
            absent: third,
        })
    } else if word == "case" {
        case_of(first, second, third)
    } else {
        None
    }
}

/// The budget of the words for its base and its hold.
fn budget_of(base: &str, hold: &str) -> Option<Budget>
    ensures is { result ≡ meaning.budget_of base.now hold.now }
    ensures limits { IfSome result IsBudget }
{
    let base = number_from(base, 0, 1 << 60)?;
    let hold = number_from(hold, 0, 1 << 60)?;
    Some(Budget { base, hold })
}

/// The command of a word with the names of two files and a budget.
fn with_budget<'w>(
    word: &str,
    first: &'w str,
    second: &'w str,
    base: &str,
    hold: &str,
) -> Option<Command<'w>>
    ensures is { option_map named result
        ≡ meaning.with_budget word.now first.now second.now base.now hold.now }
    ensures granted { IfSome result IsGranted }
{
    if word != "drill" {
        return None;
    }
    let budget = budget_of(base, hold)?;
    Some(Command::Drill {
        topology: first,
        plan: second,
        budget,
    })
}

/// The command of a word with a fixed count of words after it.
fn with_fixed<'w>(word: &str, others: &'w [String]) -> Option<Command<'w>>
    ensures is { option_map named result
        ≡ meaning.with_fixed word.now (map string_bytes others.now) }
    ensures granted { IfSome result IsGranted }
{
    match others {
        [file] => with_one_file(word, file.as_str()),
        [first, second] => with_two_files(word, first.as_str(), second.as_str()),
        [first, second, third] => {
            with_three(word, first.as_str(), second.as_str(), third.as_str())
        }
        [first, second, third, fourth] => with_budget(
            word,
            first.as_str(),
            second.as_str(),
            third.as_str(),
            fourth.as_str(),
        ),
        _ => None,
    }
}

/// A word whose command has any count of plans.
fn takes_plans(word: &str) -> bool
    ensures { result ≡ meaning.takes_plans word.now }
{
    word == "replay" || word == "order"
}

/// The command of a word with the names of a topology, of plans and of a schedule.
fn over_plans<'w>(
    word: &str,
    topology: &'w str,
    plans: &'w [String],
    schedule: &'w str,
) -> Option<Command<'w>>
    ensures is { option_map named result
        ≡ meaning.over_plans word.now topology.now (map string_bytes plans.now) schedule.now }
    ensures granted { IfSome result IsGranted }
{
    if plans.is_empty() || plans.len() > MOST_PLANS {
        return None;
    }
    let files = Files {
        topology,
        plans,
        schedule,
    };
    if word == "replay" {
        Some(Command::Replay { files })
    } else if word == "order" {
        Some(Command::Order { files })
    } else {
        None
    }
}

/// The command of a word with the files after it, whatever the count of its plans.
fn with_plans<'w>(word: &str, files: &'w [String]) -> Option<Command<'w>>
    ensures is { option_map named result
        ≡ meaning.with_plans word.now (map string_bytes files.now) }
    ensures granted { IfSome result IsGranted }
{
    match files {
        [topology, plans @ .., schedule] => {
            over_plans(word, topology.as_str(), plans, schedule.as_str())
        }
        _ => None,
    }
}

/// The command of the words, if they are in the table.
pub(crate) fn command_of(words: &[String]) -> Option<Command<'_>>
    ensures is { option_map named result ≡ meaning.command_of (map string_bytes words.now) }
    ensures granted { IfSome result IsGranted }
{
    let [word, others @ ..] = words else {
        return None;
    };
    let word = word.as_str();
    if takes_plans(word) {
        with_plans(word, others)
    } else {
        with_fixed(word, others)
    }
}
