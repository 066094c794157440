// Replays the oracle's answers, a list for each call, through the proved code, and writes how many lines of each agree and how many answers of each call
// they hold; then runs the worked examples that are run only. The lists stand in data/; a line is words of 16 hexadecimal digits, arguments
// and answer, with a tab between the two. Each argument names a list: the calls that it has an answer of in every line, '|' after each, and its file.
#![tactic(auto)]

mod cells;
mod cycles;
mod dfn_cells;
mod discharges;
mod electrolytes;
mod functions;
mod line;
mod lowest;
mod particles;
mod ranges;
mod replays;
mod rows;
mod run_only;
mod sheets;
mod systems;

use line::Line;
use std::env::{Args, Env, args};
use std::fs::Files;
use std::io;

// The replay of the arguments' lists, as far as it has come: how many answers were replayed.
#[derive(Drop)]
struct Replay<'a, R> {
    rt: &'a R,
    texts: Args,
    answers: usize,
}

impl<R: Env + Files + Print + AllocGlobal> Replay<'_, R> {
    // Replays the list of an argument, with a test that says whether a line agrees.
    fn replay<F: Fn(&mut Line<'_>) -> bool>(&mut self, text: &str, agrees: F) -> io::Result<()>
        requires { F.IsAlwaysCallable agrees }
    {
        let rt = self.rt;
        let mut calls = text.split('|');
        let name = calls.next_back().unwrap_or(text);
        let bytes = std::fs::read(rt, name)?;
        let mut line = Line { rest: &bytes };
        let mut lines = 0usize;
        let mut agreed = 0usize;
        // no list has more lines than this
        for _turn in 0..1_000_000 {
            if line.is_over() {
                break;
            }
            lines = lines.saturating_add(1);
            agreed = agreed.saturating_add(usize::from(agrees(&mut line)));
        }
        let _ = println!(rt; "{name}: {agreed} of {lines} agree");
        for call in calls {
            let _ = println!(rt; "{call}: {lines} answers");
            self.answers = self.answers.saturating_add(lines);
        }
        Ok(())
    }

    // Replays the list of the next argument; one that is missing counts as empty.
    fn next<F: Fn(&mut Line<'_>) -> bool>(&mut self, agrees: F) -> io::Result<()>
        requires { F.IsAlwaysCallable agrees }
    {
        match self.texts.next() {
            Some(text) => self.replay(text.as_str(), agrees),
            None => self.replay("", agrees),
        }
    }

    // The lists of the inner parts, the sheet and the particle, in the order of the arguments.
    fn small(&mut self) -> io::Result<()> {
        self.next(ranges::line)?;
        self.next(functions::elementary_line)?;
        self.next(functions::powf_line)?;
        self.next(functions::small_line)?;
        self.next(functions::count_line)?;
        self.next(sheets::ready_line)?;
        self.next(sheets::d_s_line)?;
        self.next(sheets::area_line)?;
        self.next(sheets::ocp_line)?;
        self.next(sheets::volume_line)?;
        self.next(particles::new_line)?;
        self.next(particles::step_line)?;
        self.next(particles::dt_stable_line)?;
        self.next(particles::number_line)
    }

    // Those of the cells, the electrolyte, the equations, E where it is largest and least, recorded loads, phases, and the lowest voltages of groups.
    fn large(&mut self) -> io::Result<()> {
        self.next(cells::ready_line)?;
        self.next(cells::new_line)?;
        self.next(cells::step_line)?;
        self.next(cells::number_line)?;
        self.next(discharges::run_line)?;
        self.next(electrolytes::rates_line)?;
        self.next(electrolytes::new_line)?;
        self.next(electrolytes::numbers_line)?;
        self.next(electrolytes::step_line)?;
        self.next(electrolytes::dt_stable_line)?;
        self.next(systems::line)?;
        self.next(dfn_cells::ready_line)?;
        self.next(dfn_cells::new_line)?;
        self.next(dfn_cells::step_line)?;
        self.next(dfn_cells::run_line)?;
        self.next(functions::exp_line)?;
        self.next(replays::run_line)?;
        self.next(cycles::run_line)?;
        self.next(lowest::discharge_line)?;
        self.next(lowest::galvanostatic_line)?;
        self.next(lowest::search_line)
    }
}

fn main(rt: HostRuntime) -> io::Result<()> {
    let mut texts = args(&rt)?;
    // the program's own name
    let _ = texts.next();
    let mut replay = Replay {
        rt: &rt,
        texts,
        answers: 0,
    };
    replay.small()?;
    replay.large()?;
    run_only::particles(&rt);
    run_only::salty_steps(&rt);
    let _ = println!(rt; "total: {} answers", replay.answers);
    Ok(())
}
