// The worked figures of the rules, shown of the definitions that the contracts cite. There is no code here to test.
#![tactic(auto)]

ghost use Rattle.worked.specs.Figures.{Figures};

// Every worked figure of the spaces, of archives and of blocks holds.
pub fn worked_figures()
    ensures { Figures }
{}
