// The number and the figures of each refusal, from the list of the rules.
use crate::answers::tells;
use plan::refusals::Refusal;

#[test]
fn every_refusal_has_its_number_and_figures(rt: HostRuntime) {
    tells(&rt, Refusal::ShortFile, 1, 0, 0);
    tells(&rt, Refusal::PitCount, 2, 0, 0);
    tells(&rt, Refusal::DuctCount, 3, 0, 0);
    tells(&rt, Refusal::FileSize, 4, 0, 0);
    tells(&rt, Refusal::Ends { place: 7 }, 5, 7, 0);
    tells(&rt, Refusal::Length { place: 1023 }, 6, 1023, 0);
    tells(&rt, Refusal::Bore { place: 0 }, 7, 0, 0);
    tells(&rt, Refusal::Repeat { place: 2 }, 8, 2, 0);
    tells(
        &rt,
        Refusal::Unfit {
            depth: 4_294_967_295,
            pits: 65,
        },
        9,
        4_294_967_295,
        65,
    );
    tells(&rt, Refusal::NoDuct, 10, 0, 0);
    tells(&rt, Refusal::OffPlan, 11, 0, 0);
    tells(&rt, Refusal::ShortList, 12, 0, 0);
    tells(&rt, Refusal::NoWay, 13, 0, 0);
    tells(&rt, Refusal::BlankPlan, 14, 0, 0);
    tells(&rt, Refusal::ShortBuffer, 15, 0, 0);
}
