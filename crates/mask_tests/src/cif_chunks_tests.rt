//! A typed-in picture, and a sink that is too small for it.
ghost use Rattle.std.specs.Prelude.{IfOk};
ghost use Rattle.lam_geom.specs.Places.{IsPlacedSpan};
ghost use Rattle.cif_text.specs.Calls.{CanBeWritten, IsWritable};

use cif_text::{CifWriteFault, write_cif};
use lam_geom::{BoxXY, MaskBox, MaskLayer, Span};
use lam_io::{FailPlan, MemSink, OpenGate};
use lam_list::Seq;
use mask_out::{Call, Picture, Symbol};
use rule_table::Tech;
use std::alloc::{AllocError, Global};
use std::test::Fail;
use std::thread::Threads;
use stick_lex::Text;

// A joint of metal.
fn joint(alloc: Global, side: Span) -> Result<Symbol, AllocError>
    requires { IsPlacedSpan side }
    ensures { IfOk result CanBeWritten }
{
    let area = BoxXY { x: side, y: side };
    let layer = MaskLayer::NM;
    let boxes = Seq::from_vec([MaskBox { layer, area }].to_vec(alloc)?);
    let name = Text::new(alloc, b"a")?;
    Ok(Symbol { name, boxes })
}

// Twice the joint, 38 apart.
fn picture(alloc: Global) -> Result<Picture, AllocError>
    ensures { IfOk result IsWritable }
{
    let first = Call {
        symbol: 0,
        x: 0,
        y: 0,
    };
    let second = Call {
        symbol: 0,
        x: 38,
        y: 0,
    };
    let mut symbols = Vec::new(alloc);
    symbols.push(joint(alloc, Span { lo: 0, hi: 6 })?)?;
    Ok(Picture {
        symbols: Seq::from_vec(symbols),
        calls: Seq::from_vec([first, second].to_vec(alloc)?),
    })
}

fn write<H: Threads + Sync>(
    rt: &H,
    alloc: Global,
    sink: &mut MemSink,
) -> Result<(), CifWriteFault> {
    write_cif(
        rt,
        alloc,
        &OpenGate,
        &Tech::shipped(),
        &picture(alloc)?,
        1,
        sink,
    )
}

// The joint fits into the sink, and the calls do not.
#[test]
fn a_prefix_of_the_text_stands_where_a_put_fails(rt: HostRuntime) -> Result<(), Fail> {
    let alloc = rt.alloc();
    let mut sink = MemSink::new(alloc, 48, FailPlan::none(alloc))?;
    let answer = write(&rt, alloc, &mut sink);
    assert_eq!(rt; answer, Err(CifWriteFault::Fault));
    assert_eq!(rt;
        sink.bytes(),
        b"DS 1 75 1;\n9 a;\nL NM;\nB 12 12 6 6;\nDF;\nC 1 T 0 0".as_slice()
    );
    Ok(())
}
