//! Laws of declaration files.

ghost use Rattle.jl_modinfo.specs.Kept.{FilesKeepRules};
ghost use Rattle.jl_modinfo.specs.Longer.{ReadsLonger};

/// Says that a declaration which a file has keeps the rules under which writing gives it back, where the
/// packages that were found are well-formed and distinct. There is nothing to run.
pub fn files_keep_rules()
    ensures { FilesKeepRules }
{}

/// Says what reading a declaration file answers where more bytes follow. A fault stays which is not of an
/// end, nor of a rule that is looked at behind the end. `Short(at)` is within the bytes, and some longer
/// file is read past it, or it stays and lies in the content of an attribute, whose length cuts what stands
/// there. There is nothing to run.
pub fn reads_longer()
    ensures { ReadsLonger }
{}
