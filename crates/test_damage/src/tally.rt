// What came of the copies.
use crate::asked::Told;

#[derive(Clone, Copy)]
pub(crate) enum Outcome {
    Right,
    ByReading,
    ByTicks,
    ByPage,
    ByPixels,
    Wrong,
}

// A number that is none of a page's verdicts is as wrong as other heads: the form is sound.
pub(crate) fn came(told: Told, may: Option<u32>) -> Outcome {
    match told {
        Ok(heads) if Some(heads) == may => Outcome::Right,
        Err(number) if number < answer::BAD_FORM => Outcome::ByReading,
        Err(number) if number <= answer::MENDED_ROW => Outcome::ByTicks,
        Err(number) if number < ledger::OTHER_COLUMNS => Outcome::ByReading,
        Err(number) if number <= ledger::UNCLEAN_ROW => Outcome::ByPage,
        Err(number) if number <= ledger::IN_DOUBT => Outcome::ByPixels,
        Err(number) if number <= ledger::OTHER_TICKS => Outcome::ByPage,
        _ => Outcome::Wrong,
    }
}

// How many copies came to what by the desk, and how many had other heads by the old tests.
#[derive(Clone, Copy, Default)]
pub(crate) struct Tally {
    pub(crate) right: u64,
    pub(crate) reading: u64,
    pub(crate) page: u64,
    pub(crate) pixels: u64,
    pub(crate) ticks: u64,
    pub(crate) wrong: u64,
    pub(crate) old: u64,
}

fn add_one(n: &mut u64) {
    *n = n.saturating_add(1);
}

impl Tally {
    // One copy more, by the desk.
    pub(crate) fn count(&mut self, came: Outcome) {
        match came {
            Outcome::Right => add_one(&mut self.right),
            Outcome::ByReading => add_one(&mut self.reading),
            Outcome::ByPage => add_one(&mut self.page),
            Outcome::ByPixels => add_one(&mut self.pixels),
            Outcome::ByTicks => add_one(&mut self.ticks),
            Outcome::Wrong => add_one(&mut self.wrong),
        }
    }

    // The same copy, by the old tests.
    pub(crate) fn count_old(&mut self, told: Told, may: Option<u32>) {
        if let Ok(heads) = told {
            if Some(heads) != may {
                add_one(&mut self.old);
            }
        }
    }
}
