//! The laws of names: members end with what their rows say, and ask and answer for names that they lack or have.
ghost use Rattle.std.specs.Prelude.{◌≡◌, [], ◌∷◌};
ghost use Rattle.srm_model.specs.HeldNames.{ExitsAreWhatRowsSay, RequestsAreForLosses, RepairsAreOfHeld};
ghost use Rattle.srm_model.specs.SentForLost.{SendingsAreForLosses};
ghost use Rattle.srm_model.specs.OneLoss.{one_loss, handings, ends, first_name, second_name, an_exit};

/// A member holds exactly the names that it drew or took in, each with the ink with which its source drew it, and lacks exactly
/// those that it lost and did not fix.
pub fn exits_are_what_rows_say()
    ensures { ExitsAreWhatRowsSay }
{}

/// A request is sent only for a name that its sender lost, and has not fixed.
pub fn requests_are_for_losses()
    ensures { RequestsAreForLosses }
{}

/// Each request and each repair that the rows tell of was sent for a name that some member lost.
pub fn sendings_are_for_losses()
    ensures { SendingsAreForLosses }
{}

/// A repair is sent only for a name that its sender drew or took in earlier, with the ink with which its source drew it.
pub fn repairs_are_of_held()
    ensures { RepairsAreOfHeld }
{}

/// A worked run: a packet is lost, and its operation is asked for and repaired. The lost packet is handed to nobody; the second
/// one, the request and the repair are handed once to the other member, and never to their sender.
pub fn a_loss_is_repaired()
    ensures handed { handings (one_loss 1000)
        ((0, 0, 1) ∷ (0, 0, 0) ∷ (0, 1, 1) ∷ (0, 1, 0) ∷ (1, 0, 0) ∷ (1, 0, 1) ∷ (0, 2, 1) ∷ (0, 2, 0) ∷ (0, 3, 1) ∷ [])
        ≡ 0 ∷ 0 ∷ 1 ∷ 0 ∷ 1 ∷ 0 ∷ 1 ∷ 0 ∷ 0 ∷ [] }
    ensures ends { ends (one_loss 1000) ≡ an_exit 0 ((first_name, 7) ∷ (second_name, 8) ∷ []) []
        ∷ an_exit 1 ((first_name, 7) ∷ (second_name, 8) ∷ []) [] ∷ [] }
{}

/// The same run, cut short before the repair: the operation stays missing.
pub fn a_loss_stays()
    ensures { ends (one_loss 15) ≡ an_exit 0 ((first_name, 7) ∷ (second_name, 8) ∷ []) []
        ∷ an_exit 1 ((second_name, 8) ∷ []) (first_name ∷ []) ∷ [] }
{}
