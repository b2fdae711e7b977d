// The function table of the repository (function.rs, `FUNCTIONS`) as it lies in two arrays: the names in ascending
// order, then their signatures as they stand in a call, and where each of these texts begins; after the last stands the
// end. An array is built anew at each use: lend it to a `Table`.
ghost use Rattle.std.specs.Prelude.{◌≡◌};
ghost use Rattle.functions.specs.Table.{names, place_from};
ghost use Rattle.functions.specs.Functions.{functions};
ghost use Rattle.page.specs.Answers.{option_of, itself};

use crate::form::Table;

pub const LETTERS: [u8; 1222] = *b"\
    absabsentabsent_over_timeacosacoshasinasinhatanatanhavg_over_timeceilchangesclampclamp_maxclamp_mincoscosh\
    count_over_timeday_of_monthday_of_weekday_of_yeardays_in_monthdegdeltaderivdouble_exponential_smoothingendexp\
    first_over_timefloorhistogram_avghistogram_counthistogram_fractionhistogram_quantilehistogram_quantiles\
    histogram_stddevhistogram_stdvarhistogram_sumhourideltaincreaseinfointegraliratelabel_joinlabel_replace\
    last_over_timelnlog10log2mad_over_timemax_ofmax_over_timemin_ofmin_over_timeminutemonthpipredict_linear\
    present_over_timequantile_over_timeradrangerateresetsroundscalarsgnsinsinhsortsort_by_labelsort_by_label_desc\
    sort_descsqrtstartstart_timestampstddev_over_timestdvar_over_timestepsum_over_timetantanhtimetimestamp\
    ts_of_first_over_timets_of_last_over_timets_of_max_over_timets_of_min_over_timevectoryear\
    \x01\x00\x00\x00\x01\x00\x00\x00\x01\x02\x00\x00\x01\x00\x00\x00\x01\x00\x00\x00\x01\x00\x00\x00\
    \x01\x00\x00\x00\x01\x00\x00\x00\x01\x00\x00\x00\x01\x02\x00\x00\x01\x00\x00\x00\x01\x02\x00\x00\
    \x03\x00\x01\x01\x00\x00\x02\x00\x01\x00\x00\x02\x00\x01\x00\x00\x01\x00\x00\x00\x01\x00\x00\x00\
    \x01\x02\x00\x00\x01\x00\x02\x01\x00\x01\x00\x02\x01\x00\x01\x00\x02\x01\x00\x01\x00\x02\x01\x00\
    \x01\x00\x00\x00\x01\x02\x00\x00\x01\x02\x00\x00\x03\x02\x01\x01\x00\x00\x00\x00\x01\x01\x00\x00\x00\
    \x01\x02\x00\x00\x01\x00\x00\x00\x01\x00\x00\x00\x01\x00\x00\x00\x03\x01\x01\x00\x00\x00\x02\x01\x00\x00\x00\
    \x04\x00\x03\x01\x01\x02\x09\x00\x01\x00\x00\x00\x01\x00\x00\x00\x01\x00\x00\x00\x01\x00\x02\x01\x00\
    \x01\x02\x00\x00\x01\x02\x00\x00\x02\x00\x00\x02\x01\x00\x02\x02\x01\x02\x01\x00\x01\x02\x00\x00\
    \x04\x00\x03\x03\x03\x01\x00\x05\x00\x03\x03\x03\x03\x00\x00\x01\x02\x00\x00\x01\x00\x00\x00\x01\x00\x00\x00\
    \x01\x00\x00\x00\x01\x02\x00\x00\x02\x01\x01\x00\x01\x01\x02\x00\x00\x02\x01\x01\x00\x01\x01\x02\x00\x00\
    \x01\x00\x02\x01\x00\x01\x00\x02\x01\x00\x00\x00\x01\x02\x02\x01\x00\x00\x01\x02\x00\x00\x02\x01\x02\x00\x00\
    \x01\x00\x00\x00\x00\x00\x01\x01\x02\x00\x00\x01\x02\x00\x00\x02\x00\x01\x02\x01\x00\x01\x00\x00\x01\
    \x01\x00\x00\x00\x01\x00\x00\x00\x01\x00\x00\x00\x01\x00\x00\x00\x02\x00\x03\x01\x00\x02\x00\x03\x01\x00\
    \x01\x00\x00\x00\x01\x00\x00\x00\x00\x00\x01\x01\x00\x00\x00\x01\x02\x00\x00\x01\x02\x00\x00\x00\x00\x01\
    \x01\x02\x00\x00\x01\x00\x00\x00\x01\x00\x00\x00\x00\x00\x01\x01\x00\x00\x00\x01\x02\x00\x00\x01\x02\x00\x00\
    \x01\x02\x00\x00\x01\x02\x00\x00\x01\x01\x00\x00\x01\x00\x02\x01\x00";

pub const STARTS: [u16; 183] = [
    0, 3, 9, 25, 29, 34, 38, 43, 47, 52, 65, 69, 76, 81, 90, 99, 102, 106, 121, 133, 144, 155, 168,
    171, 176, 181, 209, 212, 215, 230, 235, 248, 263, 281, 299, 318, 334, 350, 363, 367, 373, 381,
    385, 393, 398, 408, 421, 435, 437, 442, 446, 459, 465, 478, 484, 497, 503, 508, 510, 524, 541,
    559, 562, 567, 571, 577, 582, 588, 591, 594, 598, 602, 615, 633, 642, 646, 651, 666, 682, 698,
    702, 715, 718, 722, 726, 735, 756, 776, 795, 814, 820, 824, 828, 832, 836, 840, 844, 848, 852,
    856, 860, 864, 868, 872, 878, 883, 888, 892, 896, 900, 905, 910, 915, 920, 924, 928, 932, 938,
    941, 945, 949, 953, 957, 961, 967, 972, 980, 984, 988, 992, 997, 1001, 1005, 1011, 1017, 1021,
    1028, 1036, 1040, 1044, 1048, 1052, 1056, 1061, 1065, 1070, 1074, 1079, 1084, 1087, 1092, 1096,
    1101, 1105, 1108, 1112, 1116, 1122, 1126, 1130, 1134, 1138, 1142, 1147, 1152, 1156, 1160, 1163,
    1167, 1171, 1175, 1178, 1182, 1186, 1190, 1193, 1197, 1201, 1205, 1209, 1213, 1217, 1222,
];

// The place of a function in the table.
pub fn find_function(name: &[u8]) -> Option<usize>
    ensures { option_of itself result ≡ place_from 0 (names functions) name.now }
{
    let table = Table {
        letters: &LETTERS,
        starts: &STARTS,
    };
    table.find(name)
}
