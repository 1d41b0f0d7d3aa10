// The laws.
ghost use Rattle.laws_headline.specs.Met.{HeadlineIsMet};
ghost use Rattle.laws_headline.specs.Needed.{AloneIsRefused, CommandIsRefused};
ghost use Rattle.laws_headline.specs.Needed.{EarlierIsPlannedAlone, ListedIsLeftOut};
ghost use Rattle.laws_headline.specs.Needed.{NoAddressIsRefused, OtherTableIsRefused};

/// States that the headline isn't empty. A depmod makes an index of a folder with two object files,
/// one using the other. Over the files that it leaves, a load of the one that uses the other meets
/// all premises. Both modules of its plan load, and the word at the relocation of the one is the
/// address of the export of the other. The checker computes it, bytes and all. depmod(8),
/// modprobe(8); gABI 4, "Relocation".
pub fn headline_is_met()
    ensures { HeadlineIsMet }
{}

/// States what goes wrong with this load if a premise of the headline doesn't hold:
/// - `same_table`: the module with the export is refused if the machine's kernel exports the name,
///   and the kernel that was indexed doesn't;
/// - `no_command`: with an install rule for that module its step runs the command, and the load is
///   refused;
/// - `as_indexed`: by an index of the tree as it was before, only the other module is planned;
/// - `listed_load`: the same if the module with the export is listed as loaded;
/// - `alone`: and then it is refused, since nothing in the machine exports what it needs;
/// - `addresses`: there is no machine if an export of the kernel has no address.
///
/// depmod(8), modprobe(8).
pub fn headline_premises_are_needed()
    ensures same_table { OtherTableIsRefused }
    ensures no_command { CommandIsRefused }
    ensures as_indexed { EarlierIsPlannedAlone }
    ensures listed_load { ListedIsLeftOut }
    ensures alone { AloneIsRefused }
    ensures addresses { NoAddressIsRefused }
{}
