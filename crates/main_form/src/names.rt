//! The names of Main's streams and variables.

ghost use Rattle.std.specs.Prelude.{◌≡◌, ◌<◌, ◌^◌, length};
ghost use Rattle.res_lexer.specs.Pieces.{same_bytes};
ghost use Rattle.main_form.specs.Names.{first_name, input_of, output_of, second_name, variable_of};

use res_ast::{Param, Procedure};

/// Whether these are the same bytes.
pub(crate) fn same_bytes(a: &[u8], b: &[u8]) -> bool
    ensures { result ≡ same_bytes a.now b.now }
{
    a == b
}

fn first_of(params: &[Param]) -> &[u8]
    ensures { result.now ≡ first_name params.now }
{
    match params {
        [] => b"",
        [first, ..] => first.name.bytes(),
    }
}

fn second_of(params: &[Param]) -> &[u8]
    ensures { result.now ≡ second_name params.now }
{
    match params {
        [] => b"",
        [_, rest @ ..] => first_of(rest),
    }
}

/// The name of Main's input; without a first parameter the empty one.
pub(crate) fn input_of(main: &Procedure) -> &[u8]
    ensures { result.now ≡ input_of main.now }
{
    first_of(main.heading.params.as_slice())
}

/// The name of Main's output; without a second parameter the empty one.
pub(crate) fn output_of(main: &Procedure) -> &[u8]
    ensures { result.now ≡ output_of main.now }
{
    second_of(main.heading.params.as_slice())
}

/// The number of Main's first variable of this name, from 0.
pub(crate) fn variable_of(main: &Procedure, name: &[u8]) -> Option<u32>
    requires { length main.now.vars < 2 ^ 32 }
    ensures { result ≡ variable_of main.now name.now }
{
    let mut number = 0;
    for var in main.vars.as_slice() {
        if same_bytes(name, var.0.bytes()) {
            return Some(number);
        }
        number += 1;
    }
    None
}
