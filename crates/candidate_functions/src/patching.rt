//! The pairs at which an existential's node is patched, with their cubes.

ghost use Rattle.std.specs.Prelude.{◌≡◌, ◌≤◌, ◌<◌, ◌+◌, ◌-◌, List, Bool, length, take, slice_get, slice_index, All, Contains, IfOk, OnOk, Some};
ghost use Rattle.aig_graph.specs.Made.{Extends};
ghost use Rattle.expansion.specs.Table.{point_bits};
ghost use Rattle.candidate_functions.specs.Pairs.{IsRowCube, IsPlacedClass};
ghost use Rattle.row_pairs.specs.Pairs.{HasPlaces};
ghost use Rattle.candidate_functions.specs.Differing.{ArePatches};

use crate::classes::Class;
use crate::cubes::{Pair, row_cube};
use crate::differing::{Own, has_point};
use crate::outputs::Known;
use aig_graph::{Graph, Node};
use dq_lits::Memory;
use expansion::Table;
use std::alloc::Global;

impl Class {
    // The pairs at which an existential's node isn't known to have its points, with their cubes. The
    // existential sees the inputs at these places.
    pub(crate) fn pairs_to_patch(
        &mut self,
        alloc: Global,
        known: &Known,
        own: &Own,
        places: &[usize],
        graph: &mut Graph,
    ) -> Result<Vec<Pair>, Memory>
        requires as_many { length known.now.points.now.rows ≡ length known.now.table.now.rows }
        requires existential { Contains known.now.points.now.variables own.now.y }
        requires whole { All (HasPlaces places.now) known.now.table.now.rows }
        requires places { All (λ p. p < graph.old.inputs) places.now }
        requires class { IsPlacedClass known.now.table.now.rows graph.old places.now self.old }
        ensures extends { Extends graph.old graph.new }
        ensures y { self.new.y ≡ self.old.y }
        ensures class { OnOk result
            (IsPlacedClass known.now.table.now.rows graph.new places.now self.new) }
        ensures pairs { IfOk result (λ pairs. ArePatches known.now.table.now.rows
            own.now.values.now (point_bits known.now.points.now) graph.new places.now own.now.y
            own.now.place self.old.rounds.items pairs.items) }
    {
        let mut pairs = Vec::new(alloc);
        for at in 0..self.rounds.len() {
            self.patch_at(alloc, known, own, places, at, &mut pairs, graph)?;
        }
        Ok(pairs)
    }

    // Adds the pair at a place where it is to be patched.
    fn patch_at(
        &mut self,
        alloc: Global,
        known: &Known,
        own: &Own,
        places: &[usize],
        at: usize,
        pairs: &mut Vec<Pair>,
        graph: &mut Graph,
    ) -> Result<(), Memory>
        requires as_many { length known.now.points.now.rows ≡ length known.now.table.now.rows }
        requires existential { Contains known.now.points.now.variables own.now.y }
        requires whole { All (HasPlaces places.now) known.now.table.now.rows }
        requires places { All (λ p. p < graph.old.inputs) places.now }
        requires class { IsPlacedClass known.now.table.now.rows graph.old places.now self.old }
        requires at { at < length self.old.rounds.items }
        requires pairs { ArePatches known.now.table.now.rows own.now.values.now
            (point_bits known.now.points.now) graph.old places.now own.now.y own.now.place
            (take at self.old.rounds.items) pairs.old.items }
        ensures extends { Extends graph.old graph.new }
        ensures y { self.new.y ≡ self.old.y }
        ensures rounds { self.new.rounds ≡ self.old.rounds }
        ensures class { OnOk result
            (IsPlacedClass known.now.table.now.rows graph.new places.now self.new) }
        ensures pairs { OnOk result (ArePatches known.now.table.now.rows own.now.values.now
            (point_bits known.now.points.now) graph.new places.now own.now.y own.now.place
            (take (at + 1) self.old.rounds.items) pairs.new.items) }
    {
        let round = self.rounds[at];
        if !has_point(known, own, round) {
            let cube = self.cube(alloc, known.table, places, at, graph)?;
            pairs.push(Pair { round, cube })?;
        }
        Ok(())
    }

    // The cube of the pair at a place, which is made where it is asked for first.
    fn cube(
        &mut self,
        alloc: Global,
        table: &Table,
        places: &[usize],
        at: usize,
        graph: &mut Graph,
    ) -> Result<Node, Memory>
        requires whole { All (HasPlaces places.now) table.now.rows }
        requires places { All (λ p. p < graph.old.inputs) places.now }
        requires class { IsPlacedClass table.now.rows graph.old places.now self.old }
        requires at { at < length self.old.rounds.items }
        ensures extends { Extends graph.old graph.new }
        ensures y { self.new.y ≡ self.old.y }
        ensures rounds { self.new.rounds ≡ self.old.rounds }
        ensures class { OnOk result (IsPlacedClass table.now.rows graph.new places.now self.new) }
        ensures cube { (row : List Bool)
            → slice_get table.now.rows (slice_index self.old.rounds.items at - 1) ≡ Some row
            → IfOk result (IsRowCube graph.new places.now row) }
    {
        if let Some(cube) = self.cubes[at] {
            return Ok(cube);
        }
        let cube = row_cube(alloc, places, table.row(self.rounds[at]), graph)?;
        self.cubes[at] = Some(cube);
        Ok(cube)
    }
}
