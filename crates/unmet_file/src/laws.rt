// What is written is read back, and the text of a line of each form.
ghost use Rattle.std.specs.Prelude.{◌≡◌, codes};
ghost use Rattle.unmet_file.specs.Line.{line_text};
ghost use Rattle.unmet_file.specs.Unmet.{AreReadBack, IsReadAsWritten};
ghost use Rattle.symbol_binding.specs.declared.unbound.Unbound.TheVariants.{Missing, Gpl, Version};
ghost use Rattle.symbol_binding.specs.declared.unbound.Unbound.TheVariants.{Namespace, Double};

/// States that a file with lines of visible words is read back as these lines. What is read from a
/// line has visible words, and its text is the line.
pub fn lines_are_read_back()
    ensures read_back { AreReadBack }
    ensures as_written { IsReadAsWritten }
{}

/// States the text of a line of each form.
#[tactic(auto, unfolding(crate::specs::Line::line_text))]
pub fn texts_of_lines()
    ensures missing { line_text (Missing (codes "kernel/n.ko") (codes "nosuch"))
        ≡ codes "missing kernel/n.ko nosuch" }
    ensures gpl { line_text (Gpl (codes "kernel/b.ko") (codes "fa") (codes "kernel/a.ko"))
        ≡ codes "gpl kernel/b.ko fa kernel/a.ko" }
    ensures version { line_text (Version (codes "kernel/w.ko") (codes "maybe") (codes "vmlinux"))
        ≡ codes "version kernel/w.ko maybe vmlinux" }
    ensures namespace { line_text
        (Namespace (codes "kernel/b.ko") (codes "fa") (codes "kernel/a.ko"))
        ≡ codes "namespace kernel/b.ko fa kernel/a.ko" }
    ensures double { line_text (Double (codes "x") (codes "kernel/a.ko") (codes "kernel/b.ko"))
        ≡ codes "double x kernel/a.ko kernel/b.ko" }
{}
