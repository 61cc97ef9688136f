//! Sums of an independent program written from the protocol's description.
use write_sketch::{Sums, sums};

/// Leaves and addresses, the key as its bytes in order, and the sums.
struct Row {
    states: &'static [u128],
    addresses: &'static [u128],
    ckey: [u8; 32],
    sums: Sums,
}

const ROWS: [Row; 6] = [
    Row {
        states: &[0xb237_e2a9_3962_518d_23d9_41c8_d6ab_cb8c],
        addresses: &[0x8704_6093_0abf_b358_02a1_c65b_f930_7b48],
        ckey: [
            0xc5, 0xd3, 0x0a, 0x7c, 0xe1, 0xec, 0x11, 0x93, 0x78, 0xc8, 0x4f, 0x48, 0x7d, 0x77,
            0x5a, 0x85, 0x42, 0xf1, 0x3e, 0xce, 0x23, 0x8a, 0x94, 0x55, 0xe8, 0x22, 0x9e, 0x88,
            0x8d, 0xe8, 0x5b, 0xbd,
        ],
        sums: Sums {
            x: 0xb035_f6d8_e09b_3f70_163d_c7ab_cf82_4f85,
            y: 0x9683_ea98_e15a_2bf9_3f63_7605_2252_7dfb,
            m: 0xb237_e2a9_3962_518d_23d9_41c8_d6ab_cb8c,
            z: 0x035a_8814_bf5c_11be_4411_0855_ecd4_3eb3,
        },
    },
    Row {
        states: &[
            0x8355_5b36_223c_9598_abbd_6c6e_bc10_be08,
            0x45e0_4cdb_c4d2_4c91_0279_154c_4491_38a8,
        ],
        addresses: &[
            0x925c_bd56_3745_c0ea_2d76_cde8_c036_3139,
            0x2876_4422_48ec_07a3_0b6d_db1d_b14b_b9ea,
        ],
        ckey: [
            0x6b, 0xef, 0x4a, 0xb8, 0xe3, 0xff, 0xb5, 0x1b, 0x9e, 0xa0, 0x89, 0x71, 0x66, 0x98,
            0xbe, 0xf9, 0xb7, 0x81, 0xe3, 0x98, 0xf3, 0xc7, 0x9f, 0x05, 0xed, 0x7c, 0x33, 0xc2,
            0xa0, 0xa4, 0x01, 0xa0,
        ],
        sums: Sums {
            x: 0xd2e1_7bfd_1d9d_ad7c_e4a8_0557_4ba9_5031,
            y: 0x617e_f3d7_e693_6f2f_22d3_d2b8_7892_ad4f,
            m: 0xc6b5_17ed_e6ee_d909_a9c4_7922_f881_86a0,
            z: 0x93a1_6936_33cd_e969_fd72_e84d_eec7_afee,
        },
    },
    Row {
        states: &[
            0xa8cd_d90d_840a_e0e6_be4e_0e55_e717_25c4,
            0x126c_103a_10c9_fba0_b3cf_e7ed_8bf8_142b,
            0xf026_7669_025c_a4f7_9004_a40d_a57e_8388,
        ],
        addresses: &[
            0xc707_5882_7ee6_8588_7b26_c58d_7104_fbd0,
            0x303a_6bf7_49b5_09cf_b36d_a3db_3646_da88,
            0x66b5_4c19_5916_937d_147b_cc36_7e51_85e6,
        ],
        ckey: [
            0xfe, 0x34, 0x7c, 0x47, 0x84, 0xa7, 0x70, 0x56, 0xb3, 0x43, 0xd7, 0x91, 0x45, 0xca,
            0xe8, 0x1f, 0xb1, 0x57, 0xb9, 0x7b, 0x1c, 0xfc, 0x3b, 0x29, 0xe2, 0x8c, 0x39, 0x8f,
            0xcb, 0x9a, 0xe6, 0x93,
        ],
        sums: Sums {
            x: 0x49b8_02f3_c106_7fc4_e802_d4d9_9513_0b2d,
            y: 0x19a0_44ae_5171_cda4_7049_13d5_548a_041c,
            m: 0x4a87_bf5e_969f_bfb1_9d85_4db5_c991_b267,
            z: 0xd6f2_a7dd_15eb_ede5_805e_4019_4d03_acc7,
        },
    },
    Row {
        states: &[
            0x698c_a555_7479_734a_b823_99f7_134b_d7e6,
            0x033b_0339_9e1e_cbe5_db9e_bc98_7417_ac84,
            0xab78_d021_f3b7_30a1_7967_9035_9e60_e8fe,
            0x5075_3fa1_3e91_707c_dc48_fc65_b062_2e1b,
        ],
        addresses: &[
            0x7332_bf55_48b7_e1d5_cf37_f878_fcbd_6433,
            0xaf5c_8abb_5181_7ca1_cde3_c52f_c0a2_b5ad,
            0x94dc_a38d_6271_aa49_876a_736c_9584_4d2a,
            0xdcbf_37ad_53c6_364a_89d8_47dc_e48d_b945,
        ],
        ckey: [
            0x9c, 0x22, 0xfb, 0xb1, 0x11, 0x28, 0x7c, 0x4f, 0xdd, 0xae, 0xc6, 0x08, 0x49, 0xc6,
            0xd5, 0xe2, 0x41, 0x71, 0x07, 0xc0, 0xec, 0x95, 0xdc, 0x72, 0xf7, 0x8c, 0x28, 0xec,
            0x3f, 0xec, 0x30, 0x1b,
        ],
        sums: Sums {
            x: 0x6800_94e3_11db_39aa_8127_9e61_2f51_d955,
            y: 0x88bf_6244_f22a_14c0_f46b_7fb5_56d9_715a,
            m: 0x91ba_49ec_2741_f872_c692_493f_495e_bd87,
            z: 0x020d_ba51_a1b8_109a_a457_7453_52e9_fb70,
        },
    },
    Row {
        states: &[
            0x6ed5_52d6_7583_067b_7675_69d7_e023_e43b,
            0x7f2a_3d08_d0f4_8778_db2a_e294_894f_8a69,
            0xc71f_9402_72bf_67b9_cf3d_d9d8_f28f_7233,
            0x3bf0_2dbb_c72b_5929_c795_a1ad_58fa_7037,
            0x9bd8_09f0_a682_247d_c9fa_1142_ff88_7b6d,
        ],
        addresses: &[
            0x302e_6025_5736_9d05_75fc_e56c_3371_c7c5,
            0xf384_359b_9b21_7685_f8c8_fa1b_54a2_e1e5,
            0xe8ab_043d_3010_7301_0406_33be_7af3_58e8,
            0x23b1_7855_8efe_515e_ebc8_1ff6_8acb_92e4,
            0x2388_3df1_3988_cba2_a310_7f61_d23c_6736,
        ],
        ckey: [
            0xea, 0x5b, 0xb0, 0x68, 0x96, 0xd7, 0x1d, 0xfd, 0xec, 0xfe, 0x02, 0xb7, 0xe0, 0x49,
            0xc4, 0xa5, 0x77, 0x4b, 0xdb, 0x53, 0x38, 0x01, 0x36, 0x79, 0xa5, 0x76, 0xa3, 0x8f,
            0x6b, 0x58, 0x46, 0x68,
        ],
        sums: Sums {
            x: 0x9427_edd8_d1f9_a05e_c630_7e0a_fbe4_23ae,
            y: 0x286d_f8a6_cff0_7329_dbf2_2ea7_9c83_b0e7,
            m: 0x76c8_df97_b661_9bee_6c0d_e274_3c91_173b,
            z: 0xf0e7_0345_8576_a44e_6d1f_4732_3b7c_5a2a,
        },
    },
    Row {
        states: &[
            0xa2b4_a8c8_6b23_d008_1f4e_3c25_2b9e_daa9,
            0x3513_9840_952e_a0a1_4482_f589_9550_36b0,
            0x62e5_6032_1035_90ad_d87e_389c_52ff_7522,
            0xbdfa_37d2_3fe2_fbe9_57cc_cd4b_720c_1c59,
            0x7da6_97c8_5edb_8576_fa50_8b20_ef61_6837,
            0xaaff_ef08_eb3e_422a_ba7e_322c_a565_3325,
        ],
        addresses: &[
            0xbef3_07b6_3259_09bd_5cff_e7b8_fd71_ff97,
            0x6fa8_c452_c325_b9e3_3e87_ad53_ba16_01a4,
            0x3b4a_48f4_d896_d84b_07da_09cb_ab84_edbc,
            0x6644_d3fc_4520_465c_c2be_424b_bd0c_29a2,
            0x5162_9dff_b407_4484_4c65_c007_fb66_eb14,
            0xdee2_49e2_b6ff_2cc4_613c_df4b_04a2_60e3,
        ],
        ckey: [
            0xe1, 0xbd, 0x6a, 0xbf, 0xe4, 0x42, 0x4b, 0x71, 0x02, 0x47, 0x64, 0x0d, 0x30, 0x73,
            0x65, 0x50, 0x76, 0x90, 0x5a, 0x15, 0xda, 0x1e, 0x89, 0x83, 0xe9, 0x38, 0xbd, 0x22,
            0xc9, 0x3c, 0x12, 0x7b,
        ],
        sums: Sums {
            x: 0x5195_b0df_51fb_0f65_70f0_4fff_2cfc_c707,
            y: 0x76f5_eb4a_ce26_901d_b20f_529a_63a0_4256,
            m: 0x9fe1_1fa8_643f_dcb1_9450_8577_d439_de70,
            z: 0xbe40_920e_3063_3a2c_3937_6a7b_a2ed_9813,
        },
    },
];

fn has_sums(states: &[u128], addresses: &[u128], ckey: &[u8; 32], wanted: &Sums) -> bool {
    states.len() == addresses.len() && sums(states, addresses, ckey) == *wanted
}

fn are_right(rows: &[Row]) -> bool {
    let mut right = true;
    for row in rows {
        right = has_sums(row.states, row.addresses, &row.ckey, &row.sums) & right;
    }
    right
}

#[test]
fn sums_match_an_independent_program(rt: HostRuntime) {
    assert!(rt; are_right(&ROWS));
}

#[test]
fn sums_over_no_boxes_are_zero(rt: HostRuntime) {
    let zeros = Sums {
        x: 0,
        y: 0,
        m: 0,
        z: 0,
    };
    assert!(rt; has_sums(&[], &[], &[7; 32], &zeros));
}
