//! The workers of one leader, step by step.

ghost use Rattle.std.specs.Prelude.{◌≡◌, ◌+◌, ◌-◌, ◌<◌, ◌≤◌, ◌++◌, ◌^◌, ℕ, List, [], IfOk, OnOk, IfSome, Some, None, length, map, slice_get, get_or, replicate, option_to_list, All, reverse, sum, is_some, if◌then◌else◌, Option};
ghost use Rattle.std.specs.Option.{option_map, option_copied};
ghost use Rattle.rl_value.specs.Tables.{IsSchema};
ghost use Rattle.rl_tables.specs.Numbers.{sizes_of};
ghost use Rattle.rl_txn.specs.Fits.{ListsFit};
ghost use Rattle.rl_txn.specs.declared.item.Item.{Item};
ghost use Rattle.rl_events.specs.Fits.{EventFits};
ghost use Rattle.rl_script.specs.Fits.{ScriptFits};
ghost use Rattle.rl_worker.specs.Acts.{Core, Step, turn, after_turns};
ghost use Rattle.rl_worker.specs.Items.{CoreItem, insert_by_stamp};
ghost use Rattle.rl_worker.specs.Opening.{core_after, setting_of, item_seen, items_seen};
ghost use Rattle.rl_worker.specs.Told.{record_in, NamesRecord};
ghost use Rattle.rl_worker.specs.Workers.{either, with_item};
ghost use Rattle.rl_worker.specs.declared.worker.Worker.{Worker};
ghost use Rattle.rl_report.specs.Forms.{IsRefused};
ghost use Rattle.rl_app.specs.Steps.{refused_line};
ghost use Rattle.rl_app.specs.Runs.{core_of, leader_of, turns_in};
ghost use Rattle.rl_app.specs.Running.{IsRun, IsBySeq, IsFresh, IsInFirst};

use rl_base::list::{Bytes, Stamps};
use rl_base::memory::Memory;
use rl_base::refusal::Refusal;
use rl_events::event::Event;
use rl_report::middle::{Lines, Middle};
use rl_script::script::Script;
use rl_tables::layout::Layout;
use rl_txn::item::Item;
use rl_txn::op::Lists;
use rl_value::schema::Schema;
use rl_worker::words::Words;
use rl_worker::worker::Worker;
use std::alloc::Global;

/// The seq that ends an epoch, which no worker draws.
const END_SEQ: u64 = 1099511627775;

/// An open leader of epoch 1: its records and workers, what they decided by stamp, and the refusals in
/// order.
#[derive(Drop)]
pub struct Run {
    pub words: Words,
    pub workers: Vec<Worker>,
    pub decided: Vec<Item>,
    pub refused: Lines,
}

impl Run {
    /// Before any step.
    pub fn open(alloc: Global, layout: &Layout, script: &Script) -> Result<Run, Memory>
        requires layout { layout.now ≡ sizes_of script.now.schema }
        requires fits { ScriptFits script.now }
        ensures { IfOk result (λ run. IsRun script.now.schema script.now.lists run (core_after (leader_of script.now) [])) }
    {
        let stamps = no_stamps(alloc, layout.count())?;
        let words = Words::at(alloc, layout, &script.schema, &script.rows, &stamps)?;
        Ok(Run {
            words,
            workers: workers(alloc, script.workers)?,
            decided: Vec::new(alloc),
            refused: Lines::new(alloc),
        })
    }

    /// One step of a worker, if a seq is left.
    pub fn step(
        &mut self,
        alloc: Global,
        layout: &Layout,
        schema: &Schema,
        lists: &Lists,
        worker: u32,
    ) -> Result<(), Memory>
        requires layout { layout.now ≡ sizes_of schema.now }
        requires lists { ListsFit schema.now lists.now }
        requires first { 1 ≤ worker }
        requires last { worker ≤ length lists.now }
        requires run { (core : Core) × IsRun schema.now lists.now self.old core }
        ensures { (core : Core) → IsRun schema.now lists.now self.old core
            → OnOk result (IsRun schema.now lists.now self.new (turn (setting_of schema.now lists.now 1) core (Step worker))) }
    {
        if self.words.next >= END_SEQ {
            return Ok(());
        }
        let at = worker as usize - 1;
        let index = self.workers[at].next();
        let was_decided = self.workers[at].decided().is_some();
        let moved = self.workers[at].step(alloc, &mut self.words, layout, schema, lists)?;
        push_refusal(
            alloc,
            &mut self.refused,
            layout,
            schema,
            worker,
            index,
            moved.refused,
        )?;
        let item = newly_decided(alloc, was_decided, moved.ended, self.workers[at].decided())?;
        join(&mut self.decided, item)
    }

    /// Some steps of a worker, one after another.
    fn steps(
        &mut self,
        alloc: Global,
        layout: &Layout,
        schema: &Schema,
        lists: &Lists,
        worker: u32,
        count: u32,
    ) -> Result<(), Memory>
        requires layout { layout.now ≡ sizes_of schema.now }
        requires lists { ListsFit schema.now lists.now }
        requires first { 1 ≤ worker }
        requires last { worker ≤ length lists.now }
        requires run { (core : Core) × IsRun schema.now lists.now self.old core }
        ensures { (core : Core) → IsRun schema.now lists.now self.old core
            → OnOk result (IsRun schema.now lists.now self.new (after_turns (setting_of schema.now lists.now 1) core (replicate count (Step worker)))) }
    {
        for _step in 0..count {
            self.step(alloc, layout, schema, lists, worker)?;
        }
        Ok(())
    }

    /// The steps of the first node's workers that an event is.
    fn event(
        &mut self,
        alloc: Global,
        layout: &Layout,
        schema: &Schema,
        lists: &Lists,
        event: &Event,
    ) -> Result<(), Memory>
        requires layout { layout.now ≡ sizes_of schema.now }
        requires lists { ListsFit schema.now lists.now }
        requires event { (nodes : ℕ) × EventFits nodes (length lists.now) event.now }
        requires run { (core : Core) × IsRun schema.now lists.now self.old core }
        ensures { (core : Core) → IsRun schema.now lists.now self.old core
            → OnOk result (IsRun schema.now lists.now self.new (after_turns (setting_of schema.now lists.now 1) core (turns_in event.now))) }
    {
        match event {
            Event::Step {
                node: 1,
                worker,
                count,
            } => self.steps(alloc, layout, schema, lists, *worker, *count),
            _ => Ok(()),
        }
    }

    /// All steps of a script.
    pub fn follow(&mut self, alloc: Global, layout: &Layout, script: &Script) -> Result<(), Memory>
        requires layout { layout.now ≡ sizes_of script.now.schema }
        requires fits { ScriptFits script.now }
        requires opened { IsRun script.now.schema script.now.lists self.old (core_after (leader_of script.now) []) }
        ensures { OnOk result (IsRun script.now.schema script.now.lists self.new (core_of script.now)) }
    {
        for event in script.events.as_slice() {
            self.event(alloc, layout, &script.schema, &script.lists, event)?;
        }
        Ok(())
    }
}

/// The item that a step decided: none where one was decided before, else the one that it ended or the one that
/// is decided now.
fn newly_decided(
    alloc: Global,
    was_decided: bool,
    ended: Option<Item>,
    decided: Option<&Item>,
) -> Result<Option<Item>, Memory>
    ensures { IfOk result (λ item. item ≡ (if was_decided then None else either ended (option_copied decided.entry))) }
{
    if was_decided {
        return Ok(None);
    }
    match (ended, decided) {
        (Some(item), _) => Ok(Some(item)),
        (None, Some(item)) => Ok(Some(item.copy(alloc)?)),
        (None, None) => Ok(None),
    }
}

/// The opening stamp of each record.
fn no_stamps(alloc: Global, count: u32) -> Result<Stamps, Memory>
    ensures { IfOk result (λ stamps. stamps ≡ replicate count 0) }
{
    Ok(Stamps::from_vec(vec![in alloc; 0; count as usize]?))
}

/// The workers from 1 on, each at rest before its first request.
fn workers(alloc: Global, count: u32) -> Result<Vec<Worker>, Memory>
    requires { count < 2 ^ 32 - 1 }
    ensures count { IfOk result (λ workers. length workers.items ≡ count) }
    ensures each { IfOk result (λ workers. (i : ℕ) (w : Worker) → slice_get workers.items i ≡ Some w → IsFresh i w) }
{
    let mut workers = Vec::with_capacity(alloc, count as usize)?;
    for before in 0..count {
        workers.push(Worker::new(before + 1, 1, 1))?;
    }
    Ok(workers)
}

/// An item, if there is one, joins those of its epoch, by stamp.
fn join(decided: &mut Vec<Item>, item: Option<Item>) -> Result<(), Memory>
    requires sorted { IsBySeq decided.old.items }
    ensures sorted { OnOk result (IsBySeq decided.new.items) }
    ensures joined { (core : List CoreItem) (new : Option CoreItem) → decided.old.items ≡ items_seen 1 core
        → item ≡ option_map (item_seen 1) new → IfSome new IsInFirst
        → OnOk result (decided.new.items ≡ items_seen 1 (with_item new core)) }
{
    match item {
        Some(item) => insert(decided, item),
        None => Ok(()),
    }
}

/// An item joins those of its epoch, by stamp.
fn insert(decided: &mut Vec<Item>, item: Item) -> Result<(), Memory>
    requires sorted { IsBySeq decided.old.items }
    ensures sorted { OnOk result (IsBySeq decided.new.items) }
    ensures joined { (core : List CoreItem) (new : CoreItem) → decided.old.items ≡ items_seen 1 core
        → item ≡ item_seen 1 new → IsInFirst new
        → OnOk result (decided.new.items ≡ items_seen 1 (insert_by_stamp new core)) }
{
    let at = place_among(decided.as_slice(), item.stamp.seq);
    decided.insert(at, item)?;
    Ok(())
}

/// Where a seq goes among items by stamp, found from the last one on: most items come nearly in order.
fn place_among(decided: &[Item], seq: u64) -> usize
    ensures inside { result ≤ length decided.now }
    ensures above { (j : ℕ) (d : Item) → result ≤ j → j < length decided.now → seq < (get_or decided.now j d).stamp.seq }
    ensures below { (d : Item) → 0 < result → (get_or decided.now (result - 1) d).stamp.seq ≤ seq }
{
    let mut at = decided.len();
    while at > 0 && seq < decided[at - 1].stamp.seq {
        at -= 1;
    }
    at
}

/// Appends the line of a refusal, if there is one. After `Memory` the lines are as before.
fn push_refusal(
    alloc: Global,
    lines: &mut Lines,
    layout: &Layout,
    schema: &Schema,
    worker: u32,
    index: u32,
    refusal: Option<Refusal>,
) -> Result<(), Memory>
    requires schema { IsSchema schema.now }
    requires layout { layout.now ≡ sizes_of schema.now }
    requires there { NamesRecord schema.now refusal }
    requires named { All IsRefused lines.old }
    ensures lines { OnOk result (lines.new ≡ lines.old ++ option_to_list (option_map (refused_line schema.now worker index) refusal)) }
    ensures named { All IsRefused lines.new }
{
    match refusal {
        Some(refusal) => lines.push(refused_line(alloc, layout, schema, worker, index, refusal)?),
        None => Ok(()),
    }
}

/// The line of a refusal, with the name of the table and the key of the record.
fn refused_line(
    alloc: Global,
    layout: &Layout,
    schema: &Schema,
    worker: u32,
    index: u32,
    refusal: Refusal,
) -> Result<Middle, Memory>
    requires schema { IsSchema schema.now }
    requires layout { layout.now ≡ sizes_of schema.now }
    requires there { record_in refusal < sum layout.now }
    ensures line { IfOk result (λ line. line ≡ refused_line schema.now worker index refusal) }
    ensures named { IfOk result IsRefused }
{
    let (t, key) = layout.place(record_in(refusal));
    let table = Bytes::from_slice(alloc, schema.name(t).as_bytes())?;
    Ok(match refusal {
        Refusal::Locked { word, .. } => Middle::Locked {
            epoch: 1,
            worker,
            index,
            table,
            key,
            word,
        },
        Refusal::Changed { seen, found, .. } => Middle::Changed {
            epoch: 1,
            worker,
            index,
            table,
            key,
            seen,
            found,
        },
    })
}

/// The record of a refusal.
fn record_in(refusal: Refusal) -> u32
    ensures { result ≡ record_in refusal }
{
    match refusal {
        Refusal::Locked { rec, .. } | Refusal::Changed { rec, .. } => rec,
    }
}
