// The table of `log`. Row j is for the j-th of 64 parts of the numbers from 0.698 to 1.396: a centre, its inverse, and its log as `high` + `low`.
// Written by tools/tables.py.
ghost use Rattle.std.specs.Prelude.{◌≡◌};
ghost use Rattle.tables.specs.Log.{log_row_of};

#[derive(Clone, Copy)]
pub struct LogRow {
    pub centre: f64,
    pub inverse: f64,
    pub high: f64,
    pub low: f64,
}

// Constants, since a `-` in an arm would be a step of the code: a long table would take ten times as long to check.
const ROW0: LogRow = LogRow {
    centre: 0.7021484375,
    inverse: 1.4242002781641168,
    high: -0.35361044787850915,
    low: 1.0274307667935746e-13,
};

const ROW1: LogRow = LogRow {
    centre: 0.7099609375,
    inverse: 1.4085281980742779,
    high: -0.342545328065853,
    low: -8.070074941150488e-14,
};

const ROW2: LogRow = LogRow {
    centre: 0.7177734375,
    inverse: 1.3931972789115645,
    high: -0.3316013063865739,
    low: -4.249386465334667e-14,
};

const ROW3: LogRow = LogRow {
    centre: 0.7255859375,
    inverse: 1.3781965006729475,
    high: -0.3207757608815882,
    low: -1.0571709929206992e-13,
};

const ROW4: LogRow = LogRow {
    centre: 0.7333984375,
    inverse: 1.363515312916112,
    high: -0.31006615383535063,
    low: 3.2283099979657675e-14,
};

const ROW5: LogRow = LogRow {
    centre: 0.7412109375,
    inverse: 1.3491436100131753,
    high: -0.29947002820381385,
    low: -9.31400191201093e-15,
};

const ROW6: LogRow = LogRow {
    centre: 0.7490234375,
    inverse: 1.3350717079530638,
    high: -0.28898500423224505,
    low: 4.813879337354355e-14,
};

const ROW7: LogRow = LogRow {
    centre: 0.7568359375,
    inverse: 1.3212903225806452,
    high: -0.27860877624607383,
    low: -3.226863452538675e-14,
};

const ROW8: LogRow = LogRow {
    centre: 0.7646484375,
    inverse: 1.3077905491698596,
    high: -0.2683391096086325,
    low: -1.749496461514391e-14,
};

const ROW9: LogRow = LogRow {
    centre: 0.7724609375,
    inverse: 1.2945638432364097,
    high: -0.25817383783169134,
    low: -1.0787644904760699e-13,
};

const ROW10: LogRow = LogRow {
    centre: 0.7802734375,
    inverse: 1.281602002503129,
    high: -0.24811085983310477,
    low: -7.365833388300793e-14,
};

const ROW11: LogRow = LogRow {
    centre: 0.7880859375,
    inverse: 1.2688971499380421,
    high: -0.23814813732951734,
    low: 1.3043264782100526e-14,
};

const ROW12: LogRow = LogRow {
    centre: 0.7958984375,
    inverse: 1.2564417177914111,
    high: -0.22828369235867285,
    low: 8.246618998093551e-14,
};

const ROW13: LogRow = LogRow {
    centre: 0.8037109375,
    inverse: 1.244228432563791,
    high: -0.2185156049224588,
    low: 7.552369629216406e-14,
};

const ROW14: LogRow = LogRow {
    centre: 0.8115234375,
    inverse: 1.2322503008423586,
    high: -0.20884201074409248,
    low: 8.757376295184807e-14,
};

const ROW15: LogRow = LogRow {
    centre: 0.8193359375,
    inverse: 1.2205005959475566,
    high: -0.1992610991321726,
    low: -7.43136899341858e-14,
};

const ROW16: LogRow = LogRow {
    centre: 0.8271484375,
    inverse: 1.2089728453364816,
    high: -0.18977111094750398,
    low: 1.0528384628272469e-13,
};

const ROW17: LogRow = LogRow {
    centre: 0.8349609375,
    inverse: 1.1976608187134503,
    high: -0.18037033666269053,
    low: -2.343214137228758e-15,
};

const ROW18: LogRow = LogRow {
    centre: 0.8427734375,
    inverse: 1.186558516801854,
    high: -0.1710571145160884,
    low: 6.32556047441711e-14,
};

const ROW19: LogRow = LogRow {
    centre: 0.8505859375,
    inverse: 1.1756601607347876,
    high: -0.16182982874693153,
    low: -1.877291939951536e-14,
};

const ROW20: LogRow = LogRow {
    centre: 0.8583984375,
    inverse: 1.1649601820250284,
    high: -0.15268690791435802,
    low: 8.191973193166072e-14,
};

const ROW21: LogRow = LogRow {
    centre: 0.8662109375,
    inverse: 1.1544532130777903,
    high: -0.1436268232898783,
    low: 4.698833756152888e-15,
};

const ROW22: LogRow = LogRow {
    centre: 0.8740234375,
    inverse: 1.1441340782122904,
    high: -0.13464808732464917,
    low: 5.1444901097010814e-14,
};

const ROW23: LogRow = LogRow {
    centre: 0.8818359375,
    inverse: 1.1339977851605758,
    high: -0.1257492521824588,
    low: -8.87032630287482e-15,
};

const ROW24: LogRow = LogRow {
    centre: 0.8896484375,
    inverse: 1.12403951701427,
    high: -0.11692890833955971,
    low: 6.493851976428855e-14,
};

const ROW25: LogRow = LogRow {
    centre: 0.8974609375,
    inverse: 1.1142546245919478,
    high: -0.10818568324384614,
    low: 8.009783201791075e-14,
};

const ROW26: LogRow = LogRow {
    centre: 0.9052734375,
    inverse: 1.104638619201726,
    high: -0.09951824003360343,
    low: 5.492789958074389e-15,
};

const ROW27: LogRow = LogRow {
    centre: 0.9130859375,
    inverse: 1.095187165775401,
    high: -0.09092527631082703,
    low: 6.093484170733869e-14,
};

const ROW28: LogRow = LogRow {
    centre: 0.9208984375,
    inverse: 1.085896076352068,
    high: -0.08240552296592796,
    low: -6.764194166322889e-14,
};

const ROW29: LogRow = LogRow {
    centre: 0.9287109375,
    inverse: 1.0767613038906414,
    high: -0.07395774305405212,
    low: -1.0672227974323193e-14,
};

const ROW30: LogRow = LogRow {
    centre: 0.9365234375,
    inverse: 1.067778936392075,
    high: -0.06558073071596482,
    low: -5.0054796379247146e-14,
};

const ROW31: LogRow = LogRow {
    centre: 0.9443359375,
    inverse: 1.0589451913133403,
    high: -0.05727331014622905,
    low: 7.028216792724175e-14,
};

const ROW32: LogRow = LogRow {
    centre: 0.9521484375,
    inverse: 1.0502564102564103,
    high: -0.04903433460162887,
    low: 2.295306479478061e-14,
};

const ROW33: LogRow = LogRow {
    centre: 0.9599609375,
    inverse: 1.0417090539165819,
    high: -0.040862685452339065,
    low: 5.2522682539936784e-14,
};

const ROW34: LogRow = LogRow {
    centre: 0.9677734375,
    inverse: 1.0332996972754793,
    high: -0.032757271269474586,
    low: 9.481682382991937e-15,
};

const ROW35: LogRow = LogRow {
    centre: 0.9755859375,
    inverse: 1.025025025025025,
    high: -0.024717026950838772,
    low: -6.080373695418348e-14,
};

const ROW36: LogRow = LogRow {
    centre: 0.9833984375,
    inverse: 1.0168818272095332,
    high: -0.016740912880777614,
    low: -1.1318582765013653e-13,
};

const ROW37: LogRow = LogRow {
    centre: 0.9912109375,
    inverse: 1.0088669950738915,
    high: -0.008827914123457958,
    low: -1.074289432235917e-13,
};

const ROW38: LogRow = LogRow {
    centre: 1.0,
    inverse: 1.0,
    high: 0.0,
    low: 0.0,
};

const ROW39: LogRow = LogRow {
    centre: 1.0126953125,
    inverse: 0.9874638379942141,
    high: 0.012615402629990058,
    low: 8.417692526055773e-14,
};

const ROW40: LogRow = LogRow {
    centre: 1.0283203125,
    inverse: 0.9724596391263058,
    high: 0.027926706534572077,
    low: -4.966917235672633e-14,
};

const ROW41: LogRow = LogRow {
    centre: 1.0439453125,
    inverse: 0.9579045837231057,
    high: 0.043007105425658665,
    low: -6.65336116375742e-14,
};

const ROW42: LogRow = LogRow {
    centre: 1.0595703125,
    inverse: 0.943778801843318,
    high: 0.05786346037507428,
    low: 3.254882515789058e-14,
};

const ROW43: LogRow = LogRow {
    centre: 1.0751953125,
    inverse: 0.9300635785649409,
    high: 0.07250233112313254,
    low: 9.433370232587546e-14,
};

const ROW44: LogRow = LogRow {
    centre: 1.0908203125,
    inverse: 0.9167412712623098,
    high: 0.08692999346976649,
    low: -1.8872263198630824e-14,
};

const ROW45: LogRow = LogRow {
    centre: 1.1064453125,
    inverse: 0.9037952338923213,
    high: 0.1011524554285188,
    low: 3.4414656121886176e-14,
};

const ROW46: LogRow = LogRow {
    centre: 1.1220703125,
    inverse: 0.8912097476066144,
    high: 0.11517547224934788,
    low: -4.528942498946524e-14,
};

const ROW47: LogRow = LogRow {
    centre: 1.1376953125,
    inverse: 0.878969957081545,
    high: 0.12900456040028985,
    low: 5.799856438552511e-14,
};

const ROW48: LogRow = LogRow {
    centre: 1.1533203125,
    inverse: 0.8670618120237087,
    high: 0.1426450105980166,
    low: -1.0738634766523493e-13,
};

const ROW49: LogRow = LogRow {
    centre: 1.1689453125,
    inverse: 0.8554720133667502,
    high: 0.15610189995845758,
    low: 6.247424554604857e-14,
};

const ROW50: LogRow = LogRow {
    centre: 1.1845703125,
    inverse: 0.8441879637262985,
    high: 0.1693801033445652,
    low: 3.182279574903373e-14,
};

const ROW51: LogRow = LogRow {
    centre: 1.2001953125,
    inverse: 0.8331977217249796,
    high: 0.18248430396647564,
    low: 1.0609078426792106e-13,
};

const ROW52: LogRow = LogRow {
    centre: 1.2158203125,
    inverse: 0.8224899598393575,
    high: 0.19541900329932105,
    low: 3.384733744369531e-14,
};

const ROW53: LogRow = LogRow {
    centre: 1.2314453125,
    inverse: 0.8120539254559873,
    high: 0.20818853036553264,
    low: -6.617846533429735e-14,
};

const ROW54: LogRow = LogRow {
    centre: 1.2470703125,
    inverse: 0.8018794048551292,
    high: 0.22079705043302056,
    low: 6.563838319553654e-14,
};

const ROW55: LogRow = LogRow {
    centre: 1.2626953125,
    inverse: 0.7919566898685229,
    high: 0.23324857317243186,
    low: -2.7476196251453153e-14,
};

const ROW56: LogRow = LogRow {
    centre: 1.2783203125,
    inverse: 0.7822765469824293,
    high: 0.24554696031054846,
    low: -1.0162137405261603e-13,
};

const ROW57: LogRow = LogRow {
    centre: 1.2939453125,
    inverse: 0.7728301886792452,
    high: 0.2576959328209796,
    low: -1.1008936326855973e-13,
};

const ROW58: LogRow = LogRow {
    centre: 1.3095703125,
    inverse: 0.7636092468307233,
    high: 0.26969907768216217,
    low: 6.326024352256793e-14,
};

const ROW59: LogRow = LogRow {
    centre: 1.3251953125,
    inverse: 0.7546057479734709,
    high: 0.28155985423541097,
    low: 5.080456475464478e-15,
};

const ROW60: LogRow = LogRow {
    centre: 1.3408203125,
    inverse: 0.7458120903131829,
    high: 0.29328160016848415,
    low: 3.380852855894918e-14,
};

const ROW61: LogRow = LogRow {
    centre: 1.3564453125,
    inverse: 0.7372210223182145,
    high: 0.3048675371549052,
    low: -1.4550238640971103e-14,
};

const ROW62: LogRow = LogRow {
    centre: 1.3720703125,
    inverse: 0.7288256227758008,
    high: 0.31632077616836796,
    low: 2.508911932635703e-14,
};

const ROW63: LogRow = LogRow {
    centre: 1.3876953125,
    inverse: 0.7206192821956369,
    high: 0.32764432249769015,
    low: -4.2611483540314366e-14,
};

const NONE: LogRow = LogRow {
    centre: 0.0,
    inverse: 0.0,
    high: 0.0,
    low: 0.0,
};

// A `match` compiles to one load for a field; an array would be built anew at each call.
// Call it from one place only: else it is not inlined, and the whole row goes by way of the stack.
pub fn log_row(j: u64) -> LogRow
    ensures { result ≡ log_row_of j }
{
    match j {
        0 => ROW0,
        1 => ROW1,
        2 => ROW2,
        3 => ROW3,
        4 => ROW4,
        5 => ROW5,
        6 => ROW6,
        7 => ROW7,
        8 => ROW8,
        9 => ROW9,
        10 => ROW10,
        11 => ROW11,
        12 => ROW12,
        13 => ROW13,
        14 => ROW14,
        15 => ROW15,
        16 => ROW16,
        17 => ROW17,
        18 => ROW18,
        19 => ROW19,
        20 => ROW20,
        21 => ROW21,
        22 => ROW22,
        23 => ROW23,
        24 => ROW24,
        25 => ROW25,
        26 => ROW26,
        27 => ROW27,
        28 => ROW28,
        29 => ROW29,
        30 => ROW30,
        31 => ROW31,
        32 => ROW32,
        33 => ROW33,
        34 => ROW34,
        35 => ROW35,
        36 => ROW36,
        37 => ROW37,
        38 => ROW38,
        39 => ROW39,
        40 => ROW40,
        41 => ROW41,
        42 => ROW42,
        43 => ROW43,
        44 => ROW44,
        45 => ROW45,
        46 => ROW46,
        47 => ROW47,
        48 => ROW48,
        49 => ROW49,
        50 => ROW50,
        51 => ROW51,
        52 => ROW52,
        53 => ROW53,
        54 => ROW54,
        55 => ROW55,
        56 => ROW56,
        57 => ROW57,
        58 => ROW58,
        59 => ROW59,
        60 => ROW60,
        61 => ROW61,
        62 => ROW62,
        63 => ROW63,
        _ => NONE,
    }
}

// The same for many numbers at once, whose one place is another.
pub fn log_lane_row(j: u64) -> LogRow
    ensures { result ≡ log_row_of j }
{
    match j {
        0 => ROW0,
        1 => ROW1,
        2 => ROW2,
        3 => ROW3,
        4 => ROW4,
        5 => ROW5,
        6 => ROW6,
        7 => ROW7,
        8 => ROW8,
        9 => ROW9,
        10 => ROW10,
        11 => ROW11,
        12 => ROW12,
        13 => ROW13,
        14 => ROW14,
        15 => ROW15,
        16 => ROW16,
        17 => ROW17,
        18 => ROW18,
        19 => ROW19,
        20 => ROW20,
        21 => ROW21,
        22 => ROW22,
        23 => ROW23,
        24 => ROW24,
        25 => ROW25,
        26 => ROW26,
        27 => ROW27,
        28 => ROW28,
        29 => ROW29,
        30 => ROW30,
        31 => ROW31,
        32 => ROW32,
        33 => ROW33,
        34 => ROW34,
        35 => ROW35,
        36 => ROW36,
        37 => ROW37,
        38 => ROW38,
        39 => ROW39,
        40 => ROW40,
        41 => ROW41,
        42 => ROW42,
        43 => ROW43,
        44 => ROW44,
        45 => ROW45,
        46 => ROW46,
        47 => ROW47,
        48 => ROW48,
        49 => ROW49,
        50 => ROW50,
        51 => ROW51,
        52 => ROW52,
        53 => ROW53,
        54 => ROW54,
        55 => ROW55,
        56 => ROW56,
        57 => ROW57,
        58 => ROW58,
        59 => ROW59,
        60 => ROW60,
        61 => ROW61,
        62 => ROW62,
        63 => ROW63,
        _ => NONE,
    }
}
