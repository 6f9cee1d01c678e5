// The command line of `mbex`.
ghost use Rattle.std.specs.Prelude.{◌≡◌, map, option_map};
ghost use Rattle.std.specs.String.{string_bytes};
ghost use Rattle.mbe_program.specs.Options.{edition_of, files_of, options_of, seen};

use crate::options::Options;
use mbe_tt::span::Edition;

fn edition(year: &str) -> Option<Edition>
    ensures { result ≡ edition_of year.now }
{
    match year {
        "2015" => Some(Edition::Edition2015),
        "2018" => Some(Edition::Edition2018),
        "2021" => Some(Edition::Edition2021),
        "2024" => Some(Edition::Edition2024),
        _ => None,
    }
}

fn files(lint: bool, argv: &[String]) -> Option<Options<'_>>
    ensures { option_map seen result ≡ files_of lint (map string_bytes argv.now) }
{
    match argv {
        [def, arg] => Some(Options {
            lint,
            def: def.as_str(),
            arg: arg.as_str(),
            edition: Edition::Edition2024,
        }),
        [def, arg, year] => Some(Options {
            lint,
            def: def.as_str(),
            arg: arg.as_str(),
            edition: edition(year.as_str())?,
        }),
        _ => None,
    }
}

/// Parses the arguments after the program's name: `[--lint] DEF-FILE ARG-FILE [EDITION]`. The
/// edition is `2015`, `2018`, `2021` or `2024`, by default `2024`. `None` for any other arguments.
/// A first argument `--lint` is never a file.
pub fn options(argv: &[String]) -> Option<Options<'_>>
    ensures { option_map seen result ≡ options_of (map string_bytes argv.now) }
{
    match argv.split_first() {
        Some((first, rest)) if first.as_str() == "--lint" => files(true, rest),
        _ => files(false, argv),
    }
}
