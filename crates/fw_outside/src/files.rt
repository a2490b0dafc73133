ghost use Rattle.std.specs.Prelude.{IfSome, IfNone};
ghost use Rattle.fw_outside.specs.FilesView.{FilesView, Opens, MissesFile, TakesBack};

use crate::Source;

/// Files by name, each of which can be read from its beginning.
pub trait Files: Drop {
    type Src: Source;

    /// The names with their bytes, the names that were asked, and the counts.
    ghost files_view: { Self → FilesView };

    /// A new source of the bytes under a name, so that one more is out, or nothing where there is none to be had. Files
    /// that tell for which names a source was asked may stop telling.
    fn source(&mut self, name: &[u8]) -> Option<Self::Src>
        ensures found { IfSome result (λ source.
            Opens name.now (Self.Src.source_view source) (files_view self.old) (files_view self.new)) }
        ensures missing { IfNone result (MissesFile name.now (files_view self.old) (files_view self.new)) };

    /// Takes a source back, so that one fewer is out, and counts it where it had failed or been idle.
    fn back(&mut self, source: Self::Src)
        ensures { TakesBack (Self.Src.source_view source) (files_view self.old) (files_view self.new) };
}
