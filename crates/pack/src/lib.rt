// Several single-particle cells that share one config and one pair of electrode sheets. The caller keeps 1 to 32 of them side by side, and a
// call steps the one that it names where it lies.
#![tactic(auto)]

ghost use Rattle.std.specs.Prelude.{◌≡◌};
ghost use Rattle.refusal.specs.Refusals.{refusal_of};
ghost use Rattle.solver_step.specs.Answers.{reported_by};
ghost use Rattle.solver.specs.Cell.{no_solver};
ghost use Rattle.pack.specs.Answers.{cell_answered, step_answered, left_with};
ghost use Rattle.pack.specs.Pack.{parts_with, pack_cell_of, cell_built, cell_stepped, count_refusal, place_refusal, pack_answer, pack_cells};

use electrode::ElectrodeParams;
use kinetics::SpmConfig;
use refusal::{Refusal, count_within, refuse_unless};
use solver::SpmSolver;
use solver_step::{SpmParts, SpmReport};

// What the cells of a pack share.
#[derive(Clone, Copy)]
pub struct PackSheets {
    pub config: SpmConfig,
    pub anode: ElectrodeParams,
    pub cathode: ElectrodeParams,
}

// What a cell of a pack holds by itself. Its profiles have the config's count of nodes.
#[derive(Clone, Copy)]
pub struct PackCell {
    pub c_neg: [f64; 64],
    pub c_pos: [f64; 64],
    // Clock, s.
    pub time_s: f64,
}

// What a step gives: the cell after it, and its report.
#[derive(Clone, Copy)]
pub struct PackStep {
    pub cell: PackCell,
    pub report: SpmReport,
}

impl PackSheets {
    // The solver's cell that a cell of the pack is, without its profiles.
    pub fn parts_with(self, time_s: f64) -> SpmParts
        ensures { result ≡ parts_with self.config self.anode self.cathode time_s }
    {
        SpmParts {
            config: self.config,
            neg: self.anode,
            n_neg: self.config.n_nodes,
            pos: self.cathode,
            n_pos: self.config.n_nodes,
            time_s,
        }
    }
}

impl PackCell {
    // A fresh cell: both profiles as their sheets start them, the clock at +0.
    #[tactic(auto, unfolding(crate::specs::Pack::cell_built))]
    pub fn new(sheets: PackSheets) -> Result<PackCell, Refusal>
        ensures { cell_answered (pack_cell_of no_solver) result ≡ cell_built sheets.config sheets.anode sheets.cathode }
    {
        let s = SpmSolver::new(sheets.config, sheets.anode, sheets.cathode)?;
        let c_neg = s.anode.c_s;
        let c_pos = s.cathode.c_s;
        Ok(PackCell {
            c_neg,
            c_pos,
            time_s: s.time_s,
        })
    }

    // One step of the solver where the cell lies: refused, the cell is as it was.
    pub fn step_in_place(
        &mut self,
        sheets: PackSheets,
        current_a: f64,
        dt: f64,
        temp_k: f64,
    ) -> Result<SpmReport, Refusal>
        ensures { left_with self.new result ≡ cell_stepped self.old sheets.config sheets.anode sheets.cathode current_a dt temp_k }
    {
        let q = sheets.parts_with(self.time_s);
        let report = solver::step_in_place(
            q,
            &mut self.c_neg,
            &mut self.c_pos,
            current_a,
            dt,
            temp_k,
        )?;
        self.time_s = q.time_s + dt;
        Ok(report)
    }

    // The same of a copy.
    pub fn step(
        self,
        sheets: PackSheets,
        current_a: f64,
        dt: f64,
        temp_k: f64,
    ) -> Result<PackStep, Refusal>
        ensures { step_answered self result ≡ cell_stepped self sheets.config sheets.anode sheets.cathode current_a dt temp_k }
    {
        let mut cell = self;
        let report = cell.step_in_place(sheets, current_a, dt, temp_k)?;
        Ok(PackStep { cell, report })
    }
}

// Refuses a number of cells that is not 1 to 32.
#[tactic(auto, unfolding(crate::specs::Pack::count_refusal, refusal::specs::Numbers::refusal_unless, refusal::specs::Numbers::first_refusal))]
pub fn check_count(count: usize) -> Result<(), Refusal>
    ensures { refusal_of result ≡ count_refusal count }
{
    refuse_unless(count_within(count as u64, 1, 32), Refusal::Grid)
}

// Refuses an index that is not below the number of cells, then a number that is not 1 to 32.
#[tactic(auto, unfolding(crate::specs::Pack::place_refusal, refusal::specs::Numbers::refusal_unless, refusal::specs::Numbers::first_refusal))]
pub fn check_place(count: usize, index: usize) -> Result<(), Refusal>
    ensures { refusal_of result ≡ place_refusal count index }
{
    refuse_unless(index < count, Refusal::Index)?;
    check_count(count)
}

// Steps the cell at the index where it lies. Neither the other cells nor what the pack shares is looked at or changed.
pub fn pack_step(
    sheets: PackSheets,
    cells: &mut [PackCell],
    index: usize,
    current_a: f64,
    dt: f64,
    temp_k: f64,
) -> Result<SpmReport, Refusal>
    ensures { (reported_by result ≡ pack_answer sheets.config sheets.anode sheets.cathode cells.old index current_a dt temp_k) × (cells.new ≡ pack_cells sheets.config sheets.anode sheets.cathode cells.old index current_a dt temp_k) }
{
    check_place(cells.len(), index)?;
    cells[index].step_in_place(sheets, current_a, dt, temp_k)
}
