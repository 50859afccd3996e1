//! What single words stand for: numbers, workers, schedules.

ghost use Rattle.std.specs.Prelude.{◌≡◌};
ghost use Rattle.command_words.specs.Values.{number_of, schedule_of, workers_of};

use crate::command::Schedule;
use wave_base::WORKERS;
use wave_text::is_digits;

/// How many digits a number has at most.
const MOST_DIGITS: usize = 20;

/// The number that a word stands for.
pub fn number_of(word: &str) -> Option<u64>
    ensures { result ≡ number_of word.now }
{
    if word.len() <= MOST_DIGITS && is_digits(word.as_bytes()) {
        word.parse::<u64>().ok()
    } else {
        None
    }
}

/// The number of workers that a word stands for.
pub fn workers_of(word: &str) -> Option<u8>
    ensures { result ≡ workers_of word.now }
{
    match number_of(word) {
        Some(n) if 1 <= n && n <= u64::from(WORKERS) => Some(n as u8),
        _ => None,
    }
}

/// The schedule that a word stands for.
pub fn schedule_of(word: &str) -> Option<Schedule>
    ensures { result ≡ schedule_of word.now }
{
    if word == "oldest" {
        Some(Schedule::Oldest)
    } else if word == "newest" {
        Some(Schedule::Newest)
    } else if word == "movers" {
        Some(Schedule::Movers)
    } else if word == "maillast" {
        Some(Schedule::MailLast)
    } else {
        Some(Schedule::Seed(number_of(word)?))
    }
}
