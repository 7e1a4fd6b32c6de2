//! The boxes of a typed-in picture.
ghost use Rattle.std.specs.Prelude.{◌≡◌, pos, map, IfOk};
ghost use Rattle.lam_geom.specs.declared.boxes.MaskLayer.TheVariants.{ND, NM};
ghost use Rattle.mask_out.specs.{Masks.mask_of, Pictures.drawing_of};
ghost use Rattle.mask_out.specs.Worked as worked;

use crate::boxes_of_tests::words_of;
use lam_geom::{BoxXY, MaskBox, MaskLayer, Span};
use lam_list::Seq;
use mask_out::{Call, Picture, Symbol, flat};
use std::alloc::{AllocError, Global};
use std::test::Fail;
use stick_lex::Text;

// A joint of metal.
fn joint(alloc: Global) -> Result<Symbol, AllocError>
    ensures { IfOk result (λ s. drawing_of s ≡ worked.joint) }
{
    let side = Span { lo: 0, hi: 6 };
    let metal = MaskBox {
        layer: MaskLayer::NM,
        area: BoxXY { x: side, y: side },
    };
    Ok(Symbol {
        name: Text::new(alloc, b"a")?,
        boxes: Seq::from_vec([metal].to_vec(alloc)?),
    })
}

// Metal with diffusion inside it.
fn pair(alloc: Global) -> Result<Symbol, AllocError>
    ensures { IfOk result (λ s. drawing_of s ≡ worked.pair) }
{
    let inner = MaskBox {
        layer: MaskLayer::ND,
        area: BoxXY {
            x: Span { lo: 1, hi: 5 },
            y: Span { lo: 2, hi: 4 },
        },
    };
    let outer = MaskBox {
        layer: MaskLayer::NM,
        area: BoxXY {
            x: Span { lo: 0, hi: 6 },
            y: Span { lo: 0, hi: 8 },
        },
    };
    Ok(Symbol {
        name: Text::new(alloc, b"b")?,
        boxes: Seq::from_vec([inner, outer].to_vec(alloc)?),
    })
}

fn call(symbol: u32, x: i64, y: i64) -> Call
    ensures { result ≡ worked.call symbol x y }
{
    Call { symbol, x, y }
}

fn picture(alloc: Global) -> Result<Picture, AllocError>
    ensures symbols { IfOk result (λ p. map drawing_of p.symbols ≡ worked.drawings) }
    ensures calls { IfOk result (λ p. p.calls ≡ worked.calls) }
{
    let calls = [call(0, 0, 0), call(1, 38, 0), call(0, 6, 27)];
    let mut symbols = Vec::new(alloc);
    symbols.push(joint(alloc)?)?;
    symbols.push(pair(alloc)?)?;
    Ok(Picture {
        symbols: Seq::from_vec(symbols),
        calls: Seq::from_vec(calls.to_vec(alloc)?),
    })
}

#[test]
fn boxes_are_shifted_call_by_call(rt: HostRuntime) -> Result<(), Fail> {
    let boxes = flat(rt.alloc(), &picture(rt.alloc())?)?;
    let wanted = "NM 0 0 6 6, ND 39 2 4 2, NM 38 0 6 8, NM 6 27 6 6";
    assert_eq!(rt; words_of(rt.alloc(), &boxes)?.as_str(), wanted);
    Ok(())
}
