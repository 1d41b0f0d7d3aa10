// The forms of numbers and of words, as laws that the check computes.

ghost use Rattle.std.specs.Prelude.{◌≡◌, ◌^◌, ◌-◌, ◌+◌, [], ◌∷◌, codes, Some, None};
ghost use Rattle.param_apply.specs.declared.kind.Width.TheVariants.{One, Two, Four, Eight};
ghost use Rattle.param_apply.specs.Numbers.{magnitude, signed, truth, unsigned};
ghost use Rattle.param_apply.specs.Words.{stating, word_name, word_text};

/// States numbers in each form, and texts that are none.
#[tactic(auto, unfolding(crate::specs::Numbers::magnitude, crate::specs::Numbers::digits))]
pub fn forms_of_numbers()
    ensures zero { magnitude (codes "0") ≡ Some 0 }
    ensures decimal { magnitude (codes "19") ≡ Some 19 }
    ensures octal { magnitude (codes "017") ≡ Some 15 }
    ensures two_zeros { magnitude (codes "00") ≡ Some 0 }
    ensures hexadecimal { magnitude (codes "0x1F") ≡ Some 31 }
    ensures hexadecimal_upper { magnitude (codes "0Xa0") ≡ Some 160 }
    ensures no_octal { magnitude (codes "08") ≡ None }
    ensures no_digit { magnitude (codes "0x") ≡ None }
    ensures empty { magnitude [] ≡ None }
    ensures no_decimal { magnitude (codes "1f") ≡ None }
    ensures sign { magnitude (codes "-1") ≡ None }
    ensures twenty_digits { magnitude (codes "18446744073709551616") ≡ Some (2 ^ 64) }
{}

/// States numbers at the edges of the unsigned types, and those past them.
#[tactic(auto, unfolding(crate::specs::Numbers::unsigned, crate::specs::Numbers::positive, crate::specs::Numbers::magnitude, crate::specs::Numbers::digits))]
pub fn unsigned_edges()
    ensures one { unsigned One (codes "255") ≡ Some 255 }
    ensures past_one { unsigned One (codes "256") ≡ None }
    ensures two { unsigned Two (codes "+65535") ≡ Some 65535 }
    ensures past_two { unsigned Two (codes "65536") ≡ None }
    ensures four { unsigned Four (codes "0xffffffff") ≡ Some (2 ^ 32 - 1) }
    ensures past_four { unsigned Four (codes "4294967296") ≡ None }
    ensures eight { unsigned Eight (codes "18446744073709551615") ≡ Some (2 ^ 64 - 1) }
    ensures past_eight { unsigned Eight (codes "18446744073709551616") ≡ None }
    ensures below_zero { unsigned Four (codes "-1") ≡ None }
    ensures two_signs { unsigned Four (codes "+-1") ≡ None }
    ensures sign_alone { unsigned Four (codes "+") ≡ None }
{}

/// States numbers at the edges of the signed types, in two's complement, and those past them.
#[tactic(auto, unfolding(crate::specs::Numbers::signed, crate::specs::Numbers::negative, crate::specs::Numbers::positive, crate::specs::Numbers::magnitude, crate::specs::Numbers::digits))]
pub fn signed_edges()
    ensures two { signed Two (codes "32767") ≡ Some 32767 }
    ensures past_two { signed Two (codes "32768") ≡ None }
    ensures least_of_two { signed Two (codes "-32768") ≡ Some 32768 }
    ensures below_two { signed Two (codes "-32769") ≡ None }
    ensures four { signed Four (codes "2147483647") ≡ Some 2147483647 }
    ensures past_four { signed Four (codes "2147483648") ≡ None }
    ensures least_of_four { signed Four (codes "-0x80000000") ≡ Some 2147483648 }
    ensures below_four { signed Four (codes "-2147483649") ≡ None }
    ensures eight { signed Eight (codes "9223372036854775807") ≡ Some (2 ^ 63 - 1) }
    ensures past_eight { signed Eight (codes "9223372036854775808") ≡ None }
    ensures least_of_eight { signed Eight (codes "-9223372036854775808") ≡ Some (2 ^ 63) }
    ensures below_eight { signed Eight (codes "-9223372036854775809") ≡ None }
    ensures minus_one { signed Four (codes "-1") ≡ Some 4294967295 }
    ensures minus_zero { signed Four (codes "-0") ≡ Some 0 }
    ensures plus { signed Four (codes "+010") ≡ Some 8 }
    ensures two_signs { signed Four (codes "+-1") ≡ None }
    ensures sign_alone { signed Four (codes "-") ≡ None }
{}

/// States truth values.
#[tactic(auto, unfolding(crate::specs::Numbers::truth))]
pub fn truth_values()
    ensures one { truth (codes "1") ≡ Some 1 }
    ensures yes { truth (codes "yes") ≡ Some 1 }
    ensures upper_yes { truth (codes "Y") ≡ Some 1 }
    ensures on { truth (codes "oN") ≡ Some 1 }
    ensures zero { truth (codes "0x1") ≡ Some 0 }
    ensures no { truth (codes "NO") ≡ Some 0 }
    ensures off { truth (codes "Off") ≡ Some 0 }
    ensures letter { truth (codes "o") ≡ None }
    ensures word { truth (codes "true") ≡ None }
    ensures empty { truth [] ≡ None }
{}

/// States the words of a text of options, and what a word states.
pub fn words_of_options()
    ensures words { stating (codes " a=1  b -- c=2") ≡ codes "a=1" ∷ codes "b" ∷ [] }
    ensures name { word_name (codes "a=b=c") ≡ codes "a" }
    ensures text { word_text (codes "a=b=c") ≡ Some (codes "b=c") }
    ensures empty { word_text (codes "a=") ≡ Some [] }
    ensures none { word_text (codes "a") ≡ None }
{}
