ghost use Rattle.either.specs.Either.{left, right};
ghost use Rattle.std.specs.Prelude.{◌≡◌, ◌≢◌, None, OnOk, IfOk, IfSome, IsOk, IsSome, codes};
ghost use Rattle.ytdl_core.specs.Outside.{File as Named, whole_file};

use crate::opener::Opener;
use either::Either;
use std::fs::{self, File};
use std::io::{Read, Stdin};
use text_base::Failed;

/// The name that stands for standard input.
const STANDARD_INPUT: &str = "-";

/// Opens the files of the system, and standard input. It tells no content.
#[derive(Drop)]
pub struct SystemOpener<'a> {
    pub rt: &'a HostRuntime,
}

impl Opener for SystemOpener<'_> {
    type Reader = Either<File, Stdin>;

    ghost file = { λ s. None };

    fn open(&self, name: &str) -> Result<Either<File, Stdin>, Failed>
        ensures name { OnOk result (IfSome {T = Named} None (λ f. f.name ≡ name.now)) }
        ensures whole { IfOk result
            (λ reader. ⟦<Either<File, Stdin> as Read>⟧.remaining reader ≡ whole_file None) }

        // Standard input needs no opening.
        ensures input { name.now ≡ codes "-" → IsOk result × IfOk result (λ reader. IsSome (right reader)) }
        ensures file { name.now ≢ codes "-" → IfOk result (λ reader. IsSome (left reader)) }
    {
        if name == STANDARD_INPUT {
            return Ok(Either::Right(self.rt.stdin()));
        }
        match fs::open(self.rt, name) {
            Ok(file) => Ok(Either::Left(file)),
            Err(_) => Err(Failed),
        }
    }
}
