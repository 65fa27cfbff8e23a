ghost use Rattle.cases.specs.Cases.{AllHold};
ghost use Rattle.cases.specs.FewestCases.{AllShorten};

// Every row of the table of worked cases holds.
pub fn worked_cases_hold()
    ensures { AllHold }
{
    ()
}

// Every row of the table of worked cases of the fewest lines holds.
pub fn fewest_cases_hold()
    ensures { AllShorten }
{
    ()
}
