//! Laws of histories. Each function does nothing: what it ensures holds of the definitions
//! themselves, and its proof is the law's.

ghost use Rattle.std.specs.Prelude.{◌≡◌, Bool, List, IsTrue};
ghost use Rattle.registry_rules.specs.State.{State, nothing};
ghost use Rattle.registry_rules.specs.declared.request.Request.{Request};
ghost use Rattle.registry_laws_history.specs.Apart.{ChangesOfOthers, RevisedAfterOthers, RevisedAfterSteps, StepsOfOthers};
ghost use Rattle.registry_laws_history.specs.Headline.{AddsAcceptedPublish, Headline};
ghost use Rattle.registry_laws_history.specs.History.{Entry, Legal, after};
ghost use Rattle.registry_laws_history.specs.Lasting.{HistoriesLast, RunsLast};
ghost use Rattle.registry_laws_history.specs.Listed.{OrgPackagesAreRead, OwnPackagesAreRead};
ghost use Rattle.registry_laws_history.specs.PackumentMoments.{CreatedAtFirst, ModifiedAtLast, TimeKeysRise};
ghost use Rattle.registry_laws_history.specs.Runs.{Outcome, Ran, history};
ghost use Rattle.registry_laws_history.specs.Says.{Says};

/// What a legal history leaves is all that the history says.
pub fn legal_histories_say()
    ensures { (h : List Entry) → Legal h → Says h (after h) }
{}

/// A run goes on from any legal history, and what it leaves is all that the longer history says. An
/// accepted publish adds its version to those ever published, and no other request adds any.
pub fn runs_have_histories()
    ensures says { (h : List Entry) (S : State) (rs : List Request) (os : List Outcome)
        (opened : Bool) (T : State) → Ran S rs os opened T → IsTrue opened
        → Legal h → S ≡ after h → Says (history h S rs os) T }
    ensures headline { (rs : List Request) (os : List Outcome) (opened : Bool) (T : State)
        → Ran nothing rs os opened T → IsTrue opened → Headline rs os T }
    ensures adds { AddsAcceptedPublish }
{}

/// A name and version mean the same bytes for good. Whatever is accepted later: a version that is
/// still live has the moment, the manifest and the archive that it had, one that isn't was
/// withdrawn, and one that was withdrawn stays so.
pub fn published_for_good()
    ensures histories { HistoriesLast }
    ensures runs { RunsLast }
{}

/// A packument depends on its own package alone: what changes none of its versions, live and
/// withdrawn, and none of its tags leaves it as it is, and so does a request that isn't a command
/// about the package. As npm reads it, it depends on the maintainers of the package besides.
pub fn packuments_stand_apart()
    ensures changes { ChangesOfOthers }
    ensures steps { StepsOfOthers }
    ensures revised_changes { RevisedAfterOthers }
    ensures revised_steps { RevisedAfterSteps }
{}

/// The moments of a packument. `created` is when a version of the package was published, and no
/// version was published earlier. `modified` is when one was published or withdrawn, and none was
/// later. Withdrawn versions count, and nothing but versions does. The keys under `time` are in byte
/// order, each once.
pub fn packuments_have_moments()
    ensures created { CreatedAtFirst }
    ensures modified { ModifiedAtLast }
    ensures keys { TimeKeysRise }
{}

/// The list of an organisation's packages has exactly those of its scope that the caller reads, each
/// with the caller's level on it. The list of one's own packages has exactly those that the caller
/// reads in the organisations they are a member of, and those without a scope that they maintain.
pub fn lists_have_what_is_read()
    ensures organisation { OrgPackagesAreRead }
    ensures own { OwnPackagesAreRead }
{}
