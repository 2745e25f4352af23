//! How the nodes of a run are shown and reported.

ghost use Rattle.std.specs.Prelude.{◌≡◌, [], map, All, Ok, IfOk, IfSome};
ghost use Rattle.std.specs.Option.{option_copied, option_map_or};
ghost use Rattle.std.specs.FinMap as finite;
ghost use Rattle.rl_value.specs.Fits.{RowsFit};
ghost use Rattle.rl_nodes.specs.Reports.{report_of};
ghost use Rattle.rl_nodes.specs.Setups.{SetupFits, node_numbers};
ghost use Rattle.rl_nodes.specs.Views.{rows_in};
ghost use Rattle.rl_nodes.specs.World.{World, NodeShown, block_of, with_line};
ghost use Rattle.rl_node.specs.SetupOf.{setup_of};
ghost use Rattle.rl_node.specs.Standing.{ForStanding};
ghost use Rattle.rl_report.specs.Forms.{IsReport, IsSimulated};
ghost use Rattle.rl_world.specs.Reported.{block_reported, reported};
ghost use Rattle.rl_world.specs.Standing.{IsNumberOf, IsSafe, StandsRun, TriesRun};

use crate::blocks::block;
use crate::copies::copy_lines;
use crate::run::Run;
use crate::world_error::WorldError;
use rl_base::list::Seq;
use rl_base::memory::Memory;
use rl_node::node::Node;
use rl_report::block::{Block, Blocks};
use rl_report::line::{RowLines, item_lines};
use rl_report::middle::Middle;
use rl_report::report::{Report, Title};
use rl_value::map::Map;
use std::alloc::Global;

impl Run {
    /// A node is shown: what is reported of it stands among the lines. `Memory`.
    pub fn show(&mut self, alloc: Global, a: u32) -> Result<(), WorldError>
        requires safe { IsSafe self.old }
        requires node { IsNumberOf (setup_of self.old.setup) a }
        ensures runs { let setup = setup_of self.old.setup in TriesRun self.old self.new
            (λ w. Ok (with_line w (NodeShown (block_of setup w a)))) result }
        ensures safe { IsSafe self.new }
        ensures setup { self.new.setup ≡ self.old.setup }
    {
        let block = self.block(alloc, a)?;
        self.told.lines.push(Middle::Shown(block))?;
        Ok(())
    }

    /// The report of the run as it is now.
    pub fn report(&self, alloc: Global) -> Result<Report, Memory>
        requires safe { IsSafe self.now }
        ensures report { let setup = setup_of self.now.setup in (w : World) → StandsRun self.now w
            → IfOk result (λ report. report ≡ reported setup.program.tables (report_of setup w)) }
        ensures form { (w : World) → StandsRun self.now w → IfOk result IsReport }
    {
        Ok(Report {
            title: Title::Sim,
            middle: copy_lines(alloc, &self.told.lines)?,
            items: item_lines(alloc, &self.told.released)?,
            tables: RowLines::new(alloc),
            blocks: self.blocks(alloc)?,
        })
    }

    /// What is reported of each node.
    fn blocks(&self, alloc: Global) -> Result<Blocks, Memory>
        requires safe { IsSafe self.now }
        ensures blocks { let setup = setup_of self.now.setup in (w : World) → StandsRun self.now w → IfOk result (λ blocks. blocks
            ≡ map (block_reported setup.program.tables) (map (block_of setup w) (node_numbers setup))) }
        ensures form { IfOk result (All IsSimulated) }
    {
        let mut blocks = Vec::with_capacity(alloc, self.nodes.len())?;
        for before in 0..self.setup.nodes() {
            blocks.push(self.block(alloc, before + 1)?)?;
        }
        Ok(Seq::from_vec(blocks))
    }

    /// What is reported of a node.
    fn block(&self, alloc: Global, a: u32) -> Result<Block, Memory>
        requires safe { IsSafe self.now }
        requires node { IsNumberOf (setup_of self.now.setup) a }
        ensures block { let setup = setup_of self.now.setup in (w : World) → StandsRun self.now w
            → IfOk result (λ block. block ≡ block_reported setup.program.tables (block_of setup w a)) }
        ensures form { IfOk result IsSimulated }
    {
        let node = &self.nodes[a as usize - 1];
        let view = node.view(alloc, &self.setup)?;
        block(alloc, self.setup.schema(), a, &view, rows_of(node))
    }
}

/// The rows of a node's replica, where it is up.
fn rows_of(node: &Node) -> Option<&Map>
    ensures rows { ForStanding node.now (λ setup a x.
        option_map_or finite.entries (option_copied result) [] ≡ rows_in x.node x.node.state) }
    ensures fit { ForStanding node.now (λ setup a x. SetupFits setup
        → IfSome (option_copied result) (RowsFit setup.program.tables)) }
{
    if node.is_up() { Some(node.map()) } else { None }
}
