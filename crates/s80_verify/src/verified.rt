// Code that was found to be without a fault.
ghost use Rattle.std.specs.Prelude.{◌≡◌, IfOk, IfErr, OnOk};
ghost use Rattle.s80_verify.specs.Fault.{Fails, IsVerified};
ghost use Rattle.s80_verify.specs.Record.{HasDepths};

use crate::fault::{VerifyFault, VerifyKind};
use crate::header::header_fits;
use crate::places::{PLACES, places_of};
use crate::search::{check_jumps, find_all};
use s80_code::Code;
use std::marker::Model;

/// Code that can be run, and that nothing changes: it was verified, or is known to have a depth at each place.
#[derive(Debug, Drop)]
pub struct Verified {
    code: Code,
}

impl Model for Verified {
    ghost use Rattle.s80_code.specs.declared.code.Code.{Code};
    ghost use Rattle.s80_base.specs.contracts.literal.Literal as literal;
    ghost use Rattle.std.specs.Coded.{codes};

    ghost Value = { Code };

    ghost coded = { Prim.hlevel (codes, literal.the_row.coded) };

    ghost use Rattle.s80_verify.specs.Record.{HasDepths};

    ghost view = { λ v. v.code };

    ghost invariant = { λ v. HasDepths v.code };
}

impl Verified {
    /// Code that is known to have no fault, as compiled code is: it isn't looked at again.
    pub fn known(code: Code) -> Verified
        requires { HasDepths code }
        ensures same { result ≡ code }
        ensures verified { IsVerified result }
    {
        Verified { code }
    }

    /// The code that was verified.
    pub fn code(&self) -> &Code
        ensures code { result.now ≡ self.now }
        ensures verified { IsVerified self.now }
        ensures depths { HasDepths self.now }
    {
        &self.code
    }
}

/// The code as one that can be run, or what is wrong with it (Blue Book, part four). Each place is looked at once for each
/// of its two stacks; a selector is read at each send of it. Takes no memory.
pub fn verify(code: Code) -> Result<Verified, VerifyFault>
    ensures same { IfOk result (λ verified. verified ≡ code) }
    ensures verified { IfOk result (λ verified. IsVerified verified) }
    ensures fault { IfErr result (λ fault. Fails code fault.kind fault.place) }
{
    check(&code)?;
    Ok(Verified { code })
}

/// Finds a depth for each place that is reached, or a fault.
fn check(code: &Code) -> Result<(), VerifyFault>
    ensures depths { OnOk result (HasDepths code.now) }
    ensures fault { IfErr result (λ fault. Fails code.now fault.kind fault.place) }
{
    if !header_fits(code) {
        return Err(VerifyKind::Header.at(0));
    }
    if code.bytes.bytes().len() >= PLACES {
        return Err(VerifyKind::TooLong.at(1023));
    }
    let places = places_of(code);
    let found = find_all(code, &places)?;
    check_jumps(code, &places, &found)?;
    Ok(())
}
