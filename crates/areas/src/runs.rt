// A picture's run as the numbers that C keeps: width, height, macroblocks given, their events, their one-vector sums.
ghost use Rattle.std.specs.Prelude.{◌≡◌};
ghost use Rattle.refusal.specs.Number.{code_of};
ghost use Rattle.refusal.specs.Reply.{written};
ghost use Rattle.areas.specs.Run.{run_of, run_numbers, place_numbers, totals_numbers};

use picture::{Run, Totals};
use plane::{MacroblockPlace, SourceSize};
use refusal::Refusal;

pub fn run_of(numbers: [u64; 5]) -> Run
    ensures { result ≡ run_of numbers }
{
    Run {
        size: SourceSize {
            width: numbers[0] as usize,
            height: numbers[1] as usize,
        },
        macroblocks: numbers[2],
        events: numbers[3],
        sums: numbers[4],
    }
}

pub fn run_numbers(given: Run) -> [u64; 5]
    ensures { result ≡ run_numbers given }
{
    [
        given.size.width as u64,
        given.size.height as u64,
        given.macroblocks,
        given.events,
        given.sums,
    ]
}

// A run into its numbers, where there is one, and the reply's number.
pub fn write_run(told: Result<Run, Refusal>, run: &mut [u64; 5]) -> u8
    ensures value { result ≡ code_of told }
    ensures run { run.new ≡ written told run_numbers run.old }
{
    crate::records::write(told.map(run_numbers), run)
}

pub fn totals_numbers(given: Totals) -> [u64; 3]
    ensures { result ≡ totals_numbers given }
{
    [given.macroblocks, given.events, given.sums]
}

// The totals, where there are any, and the reply's number.
pub fn write_totals(told: Result<Totals, Refusal>, totals: &mut [u64; 3]) -> u8
    ensures value { result ≡ code_of told }
    ensures totals { totals.new ≡ written told totals_numbers totals.old }
{
    crate::records::write(told.map(totals_numbers), totals)
}

pub fn place_numbers(at: MacroblockPlace) -> [u64; 2]
    ensures { result ≡ place_numbers at }
{
    [at.column as u64, at.row as u64]
}
