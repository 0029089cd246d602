//! The report of an award, and what is printed of it or of a refused sheet.
ghost use Rattle.std.specs.Prelude.{◌≡◌, map, IfOk, Some};
ghost use Rattle.clearing.specs.Choices.{taken};
ghost use Rattle.rounds.specs.Views.{of_awarded};
ghost use Rattle.reports.specs.Reports.{ReportsIn, sold_line};
ghost use Rattle.reports.specs.Text.{report_text, refused_text};

use clearing::Docket;
use offers::{BANDS, Refusal};
use rounds::AwardedRound;
use search::choices;
use std::alloc::{AllocError, Global};
use std::fmt;

/// What an open band is sold, by offer number, in its market's unit.
#[derive(Clone, Copy, PartialEq, Eq, Debug)]
pub struct Sold {
    pub band: u8,
    pub quantity: u64,
}

/// An award in words: what was open, what is taken and sold, each by rising number, and the surplus in pesos.
#[derive(Drop)]
pub struct Report {
    pub open: usize,
    pub choices: u64,
    pub packages: Vec<u8>,
    pub bands: Vec<Sold>,
    pub surplus: i64,
}

/// Why a sheet has no award.
#[derive(Clone, Copy)]
pub struct RefusedSheet(pub Refusal);

impl Report {
    /// The report of an awarded round.
    pub fn new(heap: Global, round: &AwardedRound) -> Result<Report, AllocError>
        ensures { IfOk result (ReportsIn (of_awarded round.now).state) }
    {
        let mut sold = [0u64; BANDS];
        let Ok(award) = round.award(&mut sold) else {
            unreachable!()
        };
        let docket = round.docket();
        Ok(Report {
            open: docket.packages.as_slice().len(),
            choices: choices(docket),
            packages: taken_numbers(heap, docket, award.choice)?,
            bands: sold_quantities(heap, docket, &sold)?,
            surplus: award.surplus,
        })
    }
}

// The offer numbers of the packages that a choice takes.
fn taken_numbers(heap: Global, docket: &Docket, choice: u64) -> Result<Vec<u8>, AllocError>
    ensures { IfOk result (λ v. v.items ≡ map (λ p. p.number) (taken docket.now.packages choice)) }
{
    docket
        .taken(choice)
        .map(|package| package.number)
        .collect(heap)
}

// What each open band is sold, of a row by offer number.
fn sold_quantities(
    heap: Global,
    docket: &Docket,
    row: &[u64; BANDS],
) -> Result<Vec<Sold>, AllocError>
    ensures { IfOk result (λ v. v.items ≡ map (sold_line row.now) docket.now.bands) }
{
    docket
        .bands
        .as_slice()
        .iter()
        .map(|band| Sold {
            band: band.number,
            quantity: row[band.number as usize - 1],
        })
        .collect(heap)
}

impl fmt::Display for Report {
    ghost output = { λ r. Some (report_text r) };

    fn fmt<W: fmt::Write>(&self, f: &mut fmt::Formatter<W>) -> fmt::Result {
        writeln!(f, "open {} choices {}", self.open, self.choices)?;
        for number in &self.packages {
            writeln!(f, "package {number}")?;
        }
        for sold in &self.bands {
            writeln!(f, "band {} sold {}", sold.band, sold.quantity)?;
        }
        writeln!(f, "surplus {}", self.surplus)
    }
}

impl fmt::Display for RefusedSheet {
    ghost output = { λ r. Some (refused_text r) };

    fn fmt<W: fmt::Write>(&self, f: &mut fmt::Formatter<W>) -> fmt::Result {
        writeln!(f, "refused {} at {}", self.0.code.number(), self.0.byte)
    }
}
