//! What holds of every network and of the orders, as laws over the definitions.
ghost use Rattle.std.specs.Prelude.{◌≡◌, true, false, Some, None};
ghost use Rattle.srm_net.specs.declared.key.Key.{Key};
ghost use Rattle.srm_net.specs.declared.packet.Heard.{Heard};
ghost use Rattle.srm_net.specs.declared.packet.Name.{Name};
ghost use Rattle.srm_net.specs.declared.packet.PacketId.{PacketId};
ghost use Rattle.srm_net.specs.declared.packet.PageId.{PageId};
ghost use Rattle.srm_net.specs.Keys.{key_cmp};
ghost use Rattle.srm_net.specs.Names.{name_cmp, page_cmp, id_cmp, heard_cmp};
ghost use Rattle.srm_net.specs.Paths.{distance, round, hops, reaches, crosses, drops_at};
ghost use Rattle.srm_net.specs.Least.{least_delay, out};
ghost use Rattle.srm_net.specs.Examples.{tree_of_eight, uneven_chain, lone_node};
ghost use Rattle.srm_net.specs.Examples.{slow_chain, long_way, turned_chain, outage_of_link_1, loss_of_link_1, packet_of_member_0};
ghost use Rattle.srm_net.specs.Losses.{deciding, loss_word};
ghost use Rattle.srm_net.specs.Laws.{OnePath, TreesHaveOnePath, DistancesFit, AlikeBothWays, RoundsTurn};
ghost use Rattle.srm_net.specs.Laws.{LeastDelayFits, NoLinkNoTwo, OutFits, OutOfTheOnlyOne};
ghost use Rattle.srm_net.specs.Laws.{HopsTurn, HopsMeetTheTriangle, HopsFit};
ghost use Rattle.srm_net.specs.Laws.{ReachesItsSender, UnlistedReachesAll, UnlistedCrossesItsWays, UnlistedIsNowhereDropped};
ghost use Rattle.srm_net.specs.Laws.{WaysTakeTheSameLinks, EverywhereCrossesTheSame, EverywhereIsNowhereDropped};
ghost use Rattle.srm_net.specs.Laws.{ScopesLeaveTheFirst, NoScopeEndsNoWay, NarrowScopesTakePart, WideScopesDecideNothing};
ghost use Rattle.srm_net.specs.Laws.{ListedAloneReaches, ListedAloneAtAnyTime};
ghost use Rattle.srm_net.specs.Laws.{SureLossIsOutage, SureLossDropsAll, SlotsHaveOneFate, PacketsHaveTheirOwn};
ghost use Rattle.srm_net.specs.Laws.{SeedDecidesLossesAlone, OthersDecideNothing};
ghost use Rattle.srm_net.specs.Laws.{SameDropsListed, SameOutagesOut, OneListOfDrops, OrdersTotally};

/// In a tree the route between two nodes is a path, and there is no other.
pub fn one_path()
    ensures { OnePath }
{}

/// Trees are exactly the networks of 1 to [`MOST_NODES`](crate::limits::MOST_NODES) nodes, each link between two of them, that
/// have exactly one path between any two nodes.
pub fn trees_have_one_path()
    ensures { TreesHaveOnePath }
{}

/// Distances are at least 1 between different members, and at most 65,534,000,000 ticks.
pub fn distances_fit()
    ensures { DistancesFit }
{}

/// Where each link takes as long in both directions, so do distances, and half a round trip is the distance.
pub fn alike_both_ways()
    ensures { AlikeBothWays }
{}

/// A round trip takes as long from either end.
pub fn rounds_turn()
    ensures { RoundsTurn }
{}

/// Hops are the same from either end, no more than by way of a third member, none from a member to itself, and from 1 to 65,534
/// between different ones.
pub fn hops_are_a_metric()
    ensures turn { HopsTurn }
    ensures triangle { HopsMeetTheTriangle }
    ensures fit { HopsFit }
{}

/// The least delay of a link in either direction is at least 1 tick and at most each distance; without a link there are no two
/// members.
pub fn least_delay_fits()
    ensures least { LeastDelayFits }
    ensures none { NoLinkNoTwo }
{}

/// The least distance from a member is the distance to another, and no other is nearer.
pub fn out_fits()
    ensures least { OutFits }
    ensures none { OutOfTheOnlyOne }
{}

/// A packet reaches its sender.
pub fn reaches_its_sender()
    ensures { ReachesItsSender }
{}

/// A packet that no link is listed for, and that is sent when no outage or loss is yet to end, reaches every member within its
/// scope and is dropped nowhere; without scope it crosses exactly the links on the ways from its sender to members.
pub fn unlisted_packets_go_everywhere()
    ensures reaches { UnlistedReachesAll }
    ensures crosses { UnlistedCrossesItsWays }
    ensures dropped { UnlistedIsNowhereDropped }
{}

/// The links on the ways of a member are the same for every member: those on the ways between any two. A packet without scope
/// that comes to every node crosses exactly these, whoever sends it, and is dropped nowhere.
pub fn packets_cross_the_same_links()
    ensures ways { WaysTakeTheSameLinks }
    ensures crosses { EverywhereCrossesTheSame }
    ensures dropped { EverywhereIsNowhereDropped }
{}

/// A scope leaves of each way its first links. With a narrower scope a packet reaches, crosses and is dropped at a part of what
/// it would with a wider one or none. Where every member is within it, it decides nothing; and none leaves the whole ways.
pub fn scopes_end_ways()
    ensures first { ScopesLeaveTheFirst }
    ensures none { NoScopeEndsNoWay }
    ensures narrow { NarrowScopesTakePart }
    ensures wide { WideScopesDecideNothing }
{}

/// Without outages and losses it is the listed drops and the scope alone that keep a packet from a member, and when the packet is
/// sent makes no difference.
pub fn listed_drops_alone_decide()
    ensures reaches { ListedAloneReaches }
    ensures at_any_time { ListedAloneAtAnyTime }
{}

/// A loss with a rate of 1,000,000 is the drop of every packet that comes to its link in its time, as an outage is.
pub fn sure_losses_drop_all()
    ensures outage { SureLossIsOutage }
    ensures all { SureLossDropsAll }
{}

/// With `burst` a loss takes, while it is on, every packet that comes to its link in one slot, or none of them; without, each
/// packet by its own word.
pub fn losses_come_in_bursts()
    ensures slots { SlotsHaveOneFate }
    ensures packets { PacketsHaveTheirOwn }
{}

/// Without losses the seed decides nothing of what is dropped; and what becomes of a packet does not hang on drops of other
/// packets.
pub fn losses_are_of_one_packet()
    ensures seed { SeedDecidesLossesAlone }
    ensures others { OthersDecideNothing }
{}

/// Some of the words by which links lose packets, in the order of seed, stream, link, sender and count: of one packet, of the
/// next one of its sender, of a sender and a link that are exchanged, of another seed and of another stream; and those of slots
/// of 40 ticks at the last tick of one and the first of the next.
pub fn loss_words()
    ensures first { loss_word 42 54 1 (packet_of_member_0 0) ≡ 0x9a19b87a }
    ensures next { loss_word 42 54 1 (packet_of_member_0 1) ≡ 0xfe9d6646 }
    ensures exchanged { loss_word 42 54 0 (record { sender = 1; count = 0 }) ≡ 0x64b802ed }
    ensures other_seed { loss_word 43 54 1 (packet_of_member_0 0) ≡ 0xfedae83a }
    ensures other_stream { loss_word 42 55 1 (packet_of_member_0 0) ≡ 0xb8a51c5c }
    ensures last_of_slot { loss_word 0 1 1 (deciding (Some 40) (packet_of_member_0 5) 79) ≡ 0x0f7bf471 }
    ensures next_slot { loss_word 0 1 1 (deciding (Some 40) (packet_of_member_0 6) 80) ≡ 0x5edac5a1 }
{}

/// A set of drops is one list in rising order, and what it lists depends on its entries alone, as the ticks at which links are
/// out depend on the outages alone.
pub fn drops_are_a_set()
    ensures listed { SameDropsListed }
    ensures out { SameOutagesOut }
    ensures one_list { OneListOfDrops }
{}

/// Keys are totally ordered, by time, member, rank and the three numbers, and only equal keys are not told apart.
pub fn keys_are_ordered()
    ensures order { OrdersTotally key_cmp }
    ensures derived { (k l : Key) → ⟦<crate::key::Key as Ord>⟧.cmp k l ≡ key_cmp k l }
{}

/// Names are totally ordered, by source, page and number, and only equal names are not told apart.
pub fn names_are_ordered()
    ensures order { OrdersTotally name_cmp }
    ensures derived { (n o : Name) → ⟦<crate::packet::Name as Ord>⟧.cmp n o ≡ name_cmp n o }
{}

/// Pages are totally ordered, by source and page, and only equal pages are not told apart.
pub fn pages_are_ordered()
    ensures order { OrdersTotally page_cmp }
    ensures derived { (p q : PageId) → ⟦<crate::packet::PageId as Ord>⟧.cmp p q ≡ page_cmp p q }
{}

/// Identities of packets are totally ordered, by sender and count, and only equal ones are not told apart.
pub fn packet_identities_are_ordered()
    ensures order { OrdersTotally id_cmp }
    ensures derived { (p q : PacketId) → ⟦<crate::packet::PacketId as Ord>⟧.cmp p q ≡ id_cmp p q }
{}

/// Entries of session messages are totally ordered, by source, page and highest number, and only equal ones are not told apart.
pub fn entries_are_ordered()
    ensures order { OrdersTotally heard_cmp }
    ensures derived { (h i : Heard) → ⟦<crate::packet::Heard as Ord>⟧.cmp h i ≡ heard_cmp h i }
{}

/// What the definitions say of a tree of eight nodes, of a chain whose links take longer in one direction than in the other, and
/// of a lone node.
pub fn small_networks()
    ensures far { distance tree_of_eight 4 7 ≡ 8 }
    ensures near { distance tree_of_eight 4 5 ≡ 4 }
    ensures out { out tree_of_eight 3 ≡ Some 2 }
    ensures hops { hops tree_of_eight 4 7 ≡ 4 }
    ensures least { least_delay tree_of_eight ≡ Some 2 }
    ensures there { distance uneven_chain 0 2 ≡ 4 }
    ensures back { distance uneven_chain 2 1 ≡ 1 }
    ensures round { round uneven_chain 0 1 ≡ 4 }
    ensures uneven_hops { hops uneven_chain 0 2 ≡ 2 }
    ensures uneven_out { out uneven_chain 1 ≡ Some 3 }
    ensures uneven_least { least_delay uneven_chain ≡ Some 1 }
    ensures no_out { out lone_node 0 ≡ None }
    ensures no_least { least_delay lone_node ≡ None }
{}

/// What the definitions say of outages in a chain of three nodes whose links take 5 ticks. Member 0 sends at ticks 0 and 10, and
/// link 1 is out in one tick: in tick 5, when the first packet comes there, in tick 4 or in tick 6. In a chain whose first link
/// takes 3 ticks in the direction in which the packet takes it, and 1 in the other, the packet comes to the next link at tick 3.
pub fn small_outages()
    ensures near { reaches slow_chain (outage_of_link_1 5 6) (packet_of_member_0 0) 0 None 1 ≡ true }
    ensures far { reaches slow_chain (outage_of_link_1 5 6) (packet_of_member_0 0) 0 None 2 ≡ false }
    ensures dropped { drops_at slow_chain (outage_of_link_1 5 6) (packet_of_member_0 0) 0 None 1 ≡ true }
    ensures not_crossed { crosses slow_chain (outage_of_link_1 5 6) (packet_of_member_0 0) 0 None 1 ≡ false }
    ensures crossed { crosses slow_chain (outage_of_link_1 5 6) (packet_of_member_0 0) 0 None 0 ≡ true }
    ensures later { reaches slow_chain (outage_of_link_1 5 6) (packet_of_member_0 1) 10 None 2 ≡ true }
    ensures later_crosses { crosses slow_chain (outage_of_link_1 5 6) (packet_of_member_0 1) 10 None 1 ≡ true }
    ensures over { reaches slow_chain (outage_of_link_1 4 5) (packet_of_member_0 0) 0 None 2 ≡ true }
    ensures not_yet { reaches slow_chain (outage_of_link_1 6 7) (packet_of_member_0 0) 0 None 2 ≡ true }
    ensures turned { drops_at turned_chain (outage_of_link_1 3 4) (packet_of_member_0 0) 0 None 1 ≡ true }
    ensures not_turned { drops_at turned_chain (outage_of_link_1 1 2) (packet_of_member_0 0) 0 None 1 ≡ false }
{}

/// What the definitions say of losses in a chain of three nodes whose links take 5 ticks. Member 0 sends at tick 0, and the
/// packet comes to link 1 at tick 5, with the word 0x9a19b87a: the rates from 601,955 millionths on take it.
pub fn small_losses()
    ensures taken { reaches slow_chain (loss_of_link_1 601955 0 None) (packet_of_member_0 0) 0 None 2 ≡ false }
    ensures dropped { drops_at slow_chain (loss_of_link_1 601955 0 None) (packet_of_member_0 0) 0 None 1 ≡ true }
    ensures near { reaches slow_chain (loss_of_link_1 601955 0 None) (packet_of_member_0 0) 0 None 1 ≡ true }
    ensures spared { reaches slow_chain (loss_of_link_1 601954 0 None) (packet_of_member_0 0) 0 None 2 ≡ true }
    ensures in_time { reaches slow_chain (loss_of_link_1 601955 5 (Some 6)) (packet_of_member_0 0) 0 None 2 ≡ false }
    ensures over { reaches slow_chain (loss_of_link_1 601955 4 (Some 5)) (packet_of_member_0 0) 0 None 2 ≡ true }
    ensures not_yet { reaches slow_chain (loss_of_link_1 601955 6 None) (packet_of_member_0 0) 0 None 2 ≡ true }
{}

/// What the definitions say of scopes in a chain of three nodes whose links take 5 ticks, where member 0 sends at tick 0: its
/// packet reaches and crosses what is within one hop, and is dropped no farther, also towards a member that is two hops away.
pub fn small_scopes()
    ensures near { reaches slow_chain (outage_of_link_1 5 6) (packet_of_member_0 0) 0 (Some 1) 1 ≡ true }
    ensures far { reaches slow_chain (outage_of_link_1 6 7) (packet_of_member_0 0) 0 (Some 1) 2 ≡ false }
    ensures within { reaches slow_chain (outage_of_link_1 6 7) (packet_of_member_0 0) 0 (Some 2) 2 ≡ true }
    ensures crossed { crosses slow_chain (outage_of_link_1 5 6) (packet_of_member_0 0) 0 (Some 1) 0 ≡ true }
    ensures not_crossed { crosses slow_chain (outage_of_link_1 6 7) (packet_of_member_0 0) 0 (Some 1) 1 ≡ false }
    ensures not_dropped { drops_at slow_chain (outage_of_link_1 5 6) (packet_of_member_0 0) 0 (Some 1) 1 ≡ false }
    ensures dropped { drops_at slow_chain (outage_of_link_1 5 6) (packet_of_member_0 0) 0 (Some 2) 1 ≡ true }
    ensures to_nobody { crosses long_way (outage_of_link_1 5 6) (packet_of_member_0 0) 0 (Some 1) 0 ≡ true }
    ensures nowhere { reaches long_way (outage_of_link_1 6 7) (packet_of_member_0 0) 0 (Some 1) 1 ≡ false }
{}
