//! The entry of a program that brings operations of its own.

ghost use Rattle.std.specs.Prelude.{true, false, map, string_bytes};
ghost use Rattle.lat_io.specs.Streams.{stream};
ghost use Rattle.lat_session.specs.Outcomes.{operations_of};
ghost use Rattle.natural_ops.specs.Operations.{Realizes};
ghost use Rattle.lattice_run.specs.Headline.{Headline};

use crate::run::{run_plain, run_tool};
use ff_field::{Field, Value};
use lat_io::{Sink, Source};
use natural_ops::{NaturalOp, OpTable, Operation, Ops};
use std::alloc::Global;
use std::sync::Wait;
use std::thread::Threads;

/// Runs [`run_plain`] with three operations, each a table of polynomials and a closure that gives
/// its values.
pub fn run_with<S: Source, K: Sink, F, G, H>(
    alloc: Global,
    words: &[String],
    source: &mut S,
    sink: &mut K,
    first: (OpTable, F),
    second: (OpTable, G),
    third: (OpTable, H),
) -> u8
where
    F: Fn(&Field, &Value) -> Value + Operation,
    G: Fn(&Field, &Value) -> Value + Operation,
    H: Fn(&Field, &Value) -> Value + Operation,
    requires first { Realizes F.can_run F.gives first.0 first.1 }
    requires second { Realizes G.can_run G.gives second.0 second.1 }
    requires third { Realizes H.can_run H.gives third.0 third.1 }
    ensures { Headline false (operations_of first.0 second.0 third.0) (map string_bytes words.now)
        (stream (S.left source.old) (S.faults source.old))
        (stream (S.left source.new) (S.faults source.new))
        (stream (K.held sink.old) (K.faults sink.old))
        (stream (K.held sink.new) (K.faults sink.new)) result }
{
    let ops = Ops {
        first: NaturalOp::new(first.0, first.1),
        second: NaturalOp::new(second.0, second.1),
        third: NaturalOp::new(third.0, third.1),
    };
    run_plain(alloc, words, source, sink, &ops)
}

/// Runs [`run_tool`] with three such operations.
pub fn run_tool_with<R: Threads + Wait + Sync, S: Source, K: Sink, F, G, H>(
    rt: &R,
    alloc: Global,
    words: &[String],
    source: &mut S,
    sink: &mut K,
    first: (OpTable, F),
    second: (OpTable, G),
    third: (OpTable, H),
) -> u8
where
    F: Fn(&Field, &Value) -> Value + Operation + Sync,
    G: Fn(&Field, &Value) -> Value + Operation + Sync,
    H: Fn(&Field, &Value) -> Value + Operation + Sync,
    requires first { Realizes F.can_run F.gives first.0 first.1 }
    requires second { Realizes G.can_run G.gives second.0 second.1 }
    requires third { Realizes H.can_run H.gives third.0 third.1 }
    ensures { Headline true (operations_of first.0 second.0 third.0) (map string_bytes words.now)
        (stream (S.left source.old) (S.faults source.old))
        (stream (S.left source.new) (S.faults source.new))
        (stream (K.held sink.old) (K.faults sink.old))
        (stream (K.held sink.new) (K.faults sink.new)) result }
{
    let ops = Ops {
        first: NaturalOp::new(first.0, first.1),
        second: NaturalOp::new(second.0, second.1),
        third: NaturalOp::new(third.0, third.1),
    };
    run_tool(rt, alloc, words, source, sink, &ops)
}
