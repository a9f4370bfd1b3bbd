// The limits as numbers, and what names are that are apart.
ghost use Rattle.std.specs.Prelude.{◌≡◌, ℕ, List, true};
ghost use Rattle.outside_calls.specs.Outputs.{AreApart, AreNoneOf};
ghost use Rattle.command_base.specs.Apart.{are_apart};
ghost use Rattle.command_base.specs.declared.limits.TheConstants.{RECORDING_LIMIT, HEX_LIMIT};
ghost use Rattle.shared_terms.specs.declared.limits.TheConstants.{FILE_LIMIT};

/// How many octets each input may have, but for the files that a run sends: a file 1,048,576, a recording 8,388,616, hexadecimal digits 512.
pub fn limits_in_octets()
    ensures file { FILE_LIMIT ≡ 1048576 }
    ensures recording { RECORDING_LIMIT ≡ 8388616 }
    ensures hex { HEX_LIMIT ≡ 512 }
{}

/// No two outputs whose names are apart are one, and none is an input.
pub fn apart_names_differ()
    ensures outputs { (inputs outputs : List (List ℕ)) → are_apart inputs outputs ≡ true → AreApart outputs }
    ensures inputs { (inputs outputs : List (List ℕ)) → are_apart inputs outputs ≡ true → AreNoneOf outputs inputs }
{}
